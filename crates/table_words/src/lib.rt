// The answers of the truth-table routines as three words, a number and two values (document 01, "Truth-table routines"):
// what crosses the C interface, and what recorded cases are compared by.
#![tactic(auto)]

mod values;

ghost use Rattle.std.specs.Prelude.{◌≡◌, ◌&&◌, eqb};
ghost use Rattle.meaning.specs.Rules.Tables.{answer_says};
ghost use Rattle.table_words.specs.Said.{Said};

use meaning::OutOfRange;
use meaning::numbers::BAD_TABLE;
pub use values::Values;

#[derive(Clone, Copy, PartialEq, Eq)]
pub struct Words {
    pub number: u64,
    pub first: u64,
    pub second: u64,
}

// The words of what a routine answers. At the five kinds of answer this is `lut_bit_says` and its like of meaning's
// Rules/Tables.
pub fn words_of<T: Values>(answer: Result<T, OutOfRange>) -> Words
    ensures { Said result (answer_says T.says answer) }
{
    match answer {
        Ok(value) => value.words(),
        Err(OutOfRange) => three(BAD_TABLE as u64, 0, 0),
    }
}

// The answer's number, then its values
fn three(number: u64, first: u64, second: u64) -> Words
    ensures { (result.number ≡ number) × (result.first ≡ first) × (result.second ≡ second) }
{
    Words {
        number,
        first,
        second,
    }
}

pub fn same(a: Words, b: Words) -> bool
    ensures { result ≡ (eqb a.number b.number && eqb a.first b.first && eqb a.second b.second) }
{
    a == b
}
