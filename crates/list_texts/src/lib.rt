// Lists in a text, each with its two counts: how many node words, the node words, how many pool entries, the pool
// entries. This is how a user writes a list down for a program. A caller reads the list that stands at an offset with
// `list_at`, the next one behind it, and asks `rest_from` whether the text ends there. The plain meaning is
// specs/Counted.antt.
#![tactic(auto)]

ghost use Rattle.std.specs.Prelude.{◌≡◌, length};
ghost use Rattle.list_texts.specs.Counted as counted;
ghost use Rattle.list_texts.specs.declared.NoList.TheVariants as no_list;

use decimals::{Bad, next_word};
use list_words::{next_entries, next_entry};

// A list, at the start of what was lent for it, and the offset behind it.
#[derive(Clone, Copy, Debug, PartialEq, Eq)]
pub struct ListAt {
    pub words: usize,
    pub entries: usize,
    pub next: usize,
}

// Why there is none: what is no word of 32 bits; or a count that is above the places lent, by the offset behind it.
#[derive(Clone, Copy, Debug, PartialEq, Eq)]
pub enum NoList {
    Bad(Bad),
    TooMany(usize),
}

impl From<Bad> for NoList {
    ghost from_gives = { λ bad none. none ≡ no_list.Bad bad };

    fn from(bad: Bad) -> NoList {
        NoList::Bad(bad)
    }
}

// A count and so many words, with the offset behind the last.
#[derive(Clone, Copy)]
pub(crate) struct Part {
    count: usize,
    next: usize,
}

// Any counts are taken that there are places for: whether the node words are a multiple of three is for number 1 to
// say. What is lent is scratch where there is no list.
pub fn list_at(
    text: &[u8],
    at: usize,
    nodes: &mut [u32],
    pool: &mut [u32],
) -> Result<ListAt, NoList>
    ensures value { result ≡ counted.list_at text.now at (length nodes.old) (length pool.old) }
    ensures nodes_after { nodes.new ≡ counted.filled_part text.now at nodes.old }
    ensures pool_after { pool.new ≡ counted.filled_pool text.now at (length nodes.old) pool.old }
    ensures fits { counted.Fits nodes.new pool.new result }
{
    let words = next_part(text, at, nodes)?;
    let entries = next_part(text, words.next, pool)?;
    Ok(ListAt {
        words: words.count,
        entries: entries.count,
        next: entries.next,
    })
}

// Whether there is nothing but blanks: behind the last list only these may stand.
pub fn rest_from(text: &[u8], at: usize) -> Result<bool, Bad>
    ensures { result ≡ counted.rest_from text.now at }
{
    Ok(next_word(text, at)?.is_none())
}

fn next_part(text: &[u8], at: usize, places: &mut [u32]) -> Result<Part, NoList>
    ensures value { result ≡ counted.next_part text.now (length places.old) at }
    ensures places_after { places.new ≡ counted.filled_part text.now at places.old }
{
    let count = next_entry(text, at)?;
    counted_words(text, count.next, count.value as usize, places)
}

fn counted_words(text: &[u8], at: usize, count: usize, places: &mut [u32]) -> Result<Part, NoList>
    ensures value { result ≡ counted.counted_words text.now (length places.old) count at }
    ensures places_after { places.new ≡ counted.filled_start text.now places.old count at }
{
    if count > places.len() {
        return Err(NoList::TooMany(at));
    }
    let next = next_entries(text, at, &mut places[..count])?;
    Ok(Part { count, next })
}
