// One list through the canonicaliser, and its answer: the canonical list, or the refusal in plain words.
ghost use Rattle.std.specs.Prelude.{◌≤◌, length};
ghost use Rattle.list_room.specs.Written.{work_room, Taken};

use canonical_text::{write_term, write_words};
use canonicaliser::canonicalize_expr;
use list_room::written::work_room;
use list_room::{node_room, pool_room};
use refusal_text::write_refusal;
use sizes::work_for;
use std::io;
use std::io::Write;

// There is room for any canonical list within the limits, however much shorter the given one is: its Programs and the
// pool entries that nodes share there stand apart here. So number 19 says that the list is over the limits. The term is
// written where the caller wants it.
pub(crate) fn canonicalize<W: Write, T: Write>(
    out: &mut W,
    term: &mut T,
    nodes: &[u32],
    pool: &[u32],
) -> io::Result<()>
    requires { Taken nodes.now pool.now }
{
    let mut work = work_room();
    let mut out_nodes = node_room();
    let mut out_pool = pool_room();
    canonicalize_into(
        out,
        term,
        nodes,
        pool,
        &mut work,
        &mut out_nodes,
        &mut out_pool,
    )
}

// Lends of the work space exactly what number 10 asks.
fn canonicalize_into<W: Write, T: Write>(
    out: &mut W,
    term: &mut T,
    nodes: &[u32],
    pool: &[u32],
    work: &mut [u64],
    out_nodes: &mut [u32],
    out_pool: &mut [u32],
) -> io::Result<()>
    requires taken { Taken nodes.now pool.now }
    requires work_room_in_bounds { work_room ≤ length work.old }
{
    let asked = work_for(nodes, pool);
    match canonicalize_expr(nodes, pool, &mut work[..asked], out_nodes, out_pool) {
        Ok(list) => write_starts(
            out,
            term,
            out_nodes,
            list.nodes as usize,
            out_pool,
            list.pool as usize,
        ),
        Err(refusal) => write_refusal(out, refusal),
    }
}

// The list stands at the start of what was lent for it. The counts are lent, and not the parts cut off where the list is
// answered: that they are within the outputs is shown in one place so.
fn write_starts<W: Write, T: Write>(
    out: &mut W,
    term: &mut T,
    nodes: &[u32],
    words: usize,
    pool: &[u32],
    entries: usize,
) -> io::Result<()>
    requires words_in_bounds { words ≤ length nodes.now }
    requires entries_in_bounds { entries ≤ length pool.now }
{
    write_list(out, term, &nodes[..words], &pool[..entries])
}

fn write_list<W: Write, T: Write>(
    out: &mut W,
    term: &mut T,
    nodes: &[u32],
    pool: &[u32],
) -> io::Result<()> {
    write_words(out, nodes, pool)?;
    write_term(term, nodes, pool)
}
