// One word of 32 bits.
ghost use Rattle.std.specs.Prelude.{◌≡◌};
ghost use Rattle.list_words.specs.Entries as entries;

use decimals::{Bad, Word, next_word};

// The word that stands in a text from an offset on. One is owed, so the text's end is bad; and a number that is too large
// is bad at the offset from which it was read.
pub fn next_entry(text: &[u8], at: usize) -> Result<Word<u32>, Bad>
    ensures { result ≡ entries.next_entry text.now at }
{
    let word = next_word(text, at)?.ok_or(Bad { offset: text.len() })?;
    match u32::try_from(word.value) {
        Ok(value) => Ok(Word {
            value,
            next: word.next,
        }),
        Err(_) => Err(Bad { offset: at }),
    }
}
