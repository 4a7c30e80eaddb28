// Words one behind the other, into as many places as are lent.
ghost use Rattle.std.specs.Prelude.{◌≡◌, length};
ghost use Rattle.decimals.specs.Rows as rows;
ghost use Rattle.decimals.specs.RowLaws.{end_at};

use super::{Bad, next_word};

// As many words as there are places: the offset behind the last; or no word at all. The text's end is bad where it comes
// behind a word of the row. The lent places are scratch: where there is no row they hold the words read so far, and
// behind those what was there.
pub fn next_row(text: &[u8], at: usize, row: &mut [u64]) -> Result<Option<usize>, Bad>
    ensures value { result ≡ rows.next_row text.now at (length row.old) }
    ensures row_after { row.new ≡ rows.filled text.now at row.old }
{
    let mut next = at;
    for (place, slot) in row.iter_mut().enumerate() {
        let Some(word) = next_word(text, next)? else {
            return end_at(text, place);
        };
        *slot = word.value;
        next = word.next;
    }
    Ok(Some(next))
}

fn end_at(text: &[u8], place: usize) -> Result<Option<usize>, Bad>
    ensures { result ≡ end_at text.now place }
{
    if place == 0 {
        return Ok(None);
    }
    Err(Bad { offset: text.len() })
}
