// A case that a replay reads begins with a row of decimal words. Each replay has a row of its own, and says for each place
// the largest word that may stand there: the room that there is, where the word is a size. The plain meaning is
// specs/CaseRows.antt.
#![tactic(auto)]

ghost use Rattle.std.specs.Prelude.{◌≡◌, ◌<◌, ◌≤◌, true, length, IfOk, IfSome};
ghost use Rattle.decimals.specs.Claims.{Ahead};
ghost use Rattle.decimals.specs.Rows.{filled};
ghost use Rattle.case_rows.specs.CaseRows.{case_row, within};

use decimals::{Bad, next_row};

// The largest at a place where every word may stand
pub const ANY_WORD: u64 = u64::MAX;

// Inner: a row with a word that may not stand at its place is bad where it begins. The lent places are scratch where there
// is no row. The caller has a largest word for each place.
pub fn next_case_row(
    text: &[u8],
    at: usize,
    row: &mut [u64],
    largest: &[u64],
) -> Result<Option<usize>, Bad>
    requires { length row.old ≤ length largest.now }
    ensures value { result ≡ case_row text.now at row.old largest.now }
    ensures row_after { row.new ≡ filled text.now at row.old }
    ensures gets_on { 0 < length row.old → IfOk result (λ found. IfSome found (λ next. Ahead at next (length text.now))) }
    ensures fits { IfOk result (λ found. IfSome found (λ next. within row.new largest.now ≡ true)) }
{
    let Some(next) = next_row(text, at, row)? else {
        return Ok(None);
    };
    if !is_within(row, largest) {
        return Err(Bad { offset: at });
    }
    Ok(Some(next))
}

fn is_within(row: &[u64], largest: &[u64]) -> bool
    requires { length row.now ≤ length largest.now }
    ensures { result ≡ within row.now largest.now }
{
    row.iter().zip(largest).all(|(word, most)| word <= most)
}
