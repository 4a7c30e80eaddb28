// A node list from decimal words (document 01, "The node list": "Two lent slices of u32"): what the programs that take
// a list read it with. A program says how many words it takes by the length of what it lends; so a word is owed, and a
// text that ends before it is bad at its end. The plain meaning is specs/Entries.antt. A text with its counts in it is
// read by `list_texts`.
#![tactic(auto)]

mod entry;

ghost use Rattle.std.specs.Prelude.{◌≡◌, length};
ghost use Rattle.list_words.specs.Entries as entries;

use decimals::Bad;
pub use entry::next_entry;

// The node words, and behind them the pool entries: the offset behind the last. The lent places are scratch where the
// answer is Bad, as for `next_entries`.
pub fn next_list(text: &[u8], at: usize, nodes: &mut [u32], pool: &mut [u32]) -> Result<usize, Bad>
    ensures value { result ≡ entries.next_list text.now at (length nodes.old) (length pool.old) }
    ensures nodes_after { nodes.new ≡ entries.filled text.now at nodes.old }
    ensures pool_after { pool.new ≡ entries.filled_behind text.now at (length nodes.old) pool.old }
{
    let next = next_entries(text, at, nodes)?;
    next_entries(text, next, pool)
}

// As many words as there are places, one behind the other: the offset behind the last. Where the answer is Bad the places
// hold the words read so far, and behind those what was there.
pub fn next_entries(text: &[u8], at: usize, places: &mut [u32]) -> Result<usize, Bad>
    ensures value { result ≡ entries.next_entries text.now at (length places.old) }
    ensures places_after { places.new ≡ entries.filled text.now at places.old }
{
    let mut next = at;
    for place in places.iter_mut() {
        let word = next_entry(text, next)?;
        *place = word.value;
        next = word.next;
    }
    Ok(next)
}
