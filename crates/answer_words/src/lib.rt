// An answer as three words (document 01, "Answers of a node": "a width with a value, or a failure: 1 undriven, 2 DC,
// 3 register, 4 ARG"): what recorded cases are compared by.
#![tactic(auto)]

ghost use Rattle.std.specs.Prelude.{◌≡◌, ◌&&◌, eqb};
ghost use Rattle.meaning.specs.Rules.Answers.{failure_number};
ghost use Rattle.answer_words.specs.Said.{said};

use meaning::{Answer, Failure};

// State 0 with the width and the value, or the failure's number with zeros
#[derive(Clone, Copy, PartialEq, Eq)]
pub struct Words {
    pub state: u64,
    pub width: u64,
    pub value: u64,
}

pub fn words_of(answer: Answer) -> Words
    ensures { result ≡ said answer }
{
    match answer {
        Answer::Value { width, value } => Words {
            state: 0,
            width: width as u64,
            value,
        },
        Answer::Failed(failure) => Words {
            state: failure_number(failure),
            width: 0,
            value: 0,
        },
    }
}

pub fn same(a: Words, b: Words) -> bool
    ensures { result ≡ (eqb a.state b.state && eqb a.width b.width && eqb a.value b.value) }
{
    a == b
}

// A From would stand in meaning, away from the words.
fn failure_number(failure: Failure) -> u64
    ensures { result ≡ failure_number failure }
{
    match failure {
        Failure::Undriven => 1,
        Failure::DontCare => 2,
        Failure::Register => 3,
        Failure::Argument => 4,
    }
}
