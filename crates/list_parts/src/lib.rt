// A list in a text that a user brought, and what is wrong with it in plain words: what a program that takes lists reads
// them with. The plain meaning is list_texts' specs/Counted.antt, in two cases (specs/Parts). What is wrong is written
// behind the text's name, in a program to standard error, so that standard output has its answer alone; no contract says
// what is written. A message that can't be written changes no answer, since there is nobody left to tell.
#![tactic(auto)]

mod messages;

ghost use Rattle.std.specs.Prelude.{◌≡◌, length};
ghost use Rattle.list_texts.specs.Counted as counted;
ghost use Rattle.list_parts.specs.Parts as parts;

pub use list_texts::ListAt;
use list_texts::{NoList, list_at, rest_from};
use messages::{write_bad, write_left_over, write_too_many};
use std::io::Write;

// The list that stands in a text from an offset on, at the start of what was lent for it; or none, and the message is
// written. What is lent is scratch where there is none. A list is told by its counts: what a result borrows from has no
// value that `nodes_after` and `pool_after` could speak of.
pub fn find_list<W: Write>(
    err: &mut W,
    name: &[u8],
    text: &[u8],
    at: usize,
    nodes: &mut [u32],
    pool: &mut [u32],
) -> Option<ListAt>
    ensures value { result ≡ parts.found (counted.list_at text.now at (length nodes.old) (length pool.old)) }
    ensures nodes_after { nodes.new ≡ counted.filled_part text.now at nodes.old }
    ensures pool_after { pool.new ≡ counted.filled_pool text.now at (length nodes.old) pool.old }
    ensures held { parts.Held nodes.new pool.new result }
{
    match list_at(text, at, nodes, pool) {
        Ok(list) => Some(list),
        Err(NoList::Bad(bad)) => {
            let _ = write_bad(err, name, text, bad.offset);
            None
        }
        Err(NoList::TooMany(offset)) => {
            let _ = write_too_many(err, name, nodes.len(), pool.len(), offset);
            None
        }
    }
}

// Is there nothing but blanks from an offset on?
pub fn ends<W: Write>(err: &mut W, name: &[u8], text: &[u8], at: usize) -> bool
    ensures { result ≡ parts.is_blank (counted.rest_from text.now at) }
{
    match rest_from(text, at) {
        Ok(true) => true,
        Ok(false) => {
            let _ = write_left_over(err, name, at);
            false
        }
        Err(bad) => {
            let _ = write_bad(err, name, text, bad.offset);
            false
        }
    }
}
