// Reads decimal words from bytes: what every replay of recorded cases and every program reads its input with.
#![tactic(auto)]

mod rows;

ghost use Rattle.std.specs.Prelude.{◌≡◌, true, ◌-◌, ◌≤◌, drop};
ghost use Rattle.decimals.specs.Words as words;

pub use rows::next_row;

// A number that stands in a text, as a type that it fits, and the offset of the byte behind it.
#[derive(Clone, Copy, Debug, PartialEq, Eq)]
pub struct Word<T> {
    pub value: T,
    pub next: usize,
}

// A byte that no word has there, or the text's end where a word is owed: its offset.
#[derive(Clone, Copy, Debug, PartialEq, Eq)]
pub struct Bad {
    pub offset: usize,
}

// What stands in a text from an offset on: a word, or nothing but blanks.
pub fn next_word(text: &[u8], at: usize) -> Result<Option<Word<u64>>, Bad>
    ensures { result ≡ words.next_word text.now at }
{
    for i in at..text.len() {
        if !is_blank(text[i]) {
            return Ok(Some(number_from(text, i)?));
        }
    }
    Ok(None)
}

// The word grows by a digit at a time, up to a blank or the text's end.
fn number_from(text: &[u8], start: usize) -> Result<Word<u64>, Bad>
    ensures { result ≡ words.number 0 start (drop start text.now) }
{
    let mut word = Word {
        value: 0,
        next: start,
    };
    for i in start..text.len() {
        if is_blank(text[i]) {
            break;
        }
        word.value = with_digit(word.value, text[i]).ok_or(Bad { offset: i })?;
        word.next = i + 1;
    }
    Ok(word)
}

#[tactic(auto, unfolding(crate::specs::Words::is_blank))]
fn is_blank(b: u8) -> bool
    ensures { result ≡ words.is_blank b }
{
    matches!(b, b' ' | b'\t' | b'\r' | b'\n')
}

// The value with a digit behind it, where the byte is a digit and the value stays a u64.
fn with_digit(value: u64, b: u8) -> Option<u64>
    ensures { result ≡ words.extended value b }
{
    if !b.is_ascii_digit() {
        return None;
    }
    value.checked_mul(10)?.checked_add(u64::from(b - b'0'))
}
