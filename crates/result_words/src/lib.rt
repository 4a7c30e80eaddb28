// A result with two answers as ten words (include/panel.h): what a comparison and a separation have in common. The
// plain meaning is specs/Words, `result_words`.
#![tactic(auto)]

ghost use Rattle.std.specs.Prelude.{◌≡◌};
ghost use Rattle.meaning.specs.Rules.Refusals.{refusal_said};
ghost use Rattle.result_words.specs.Words.{result_words, refusal_words};

use answer_words::words_of;
use meaning::{Answer, Refusal, numbers};

// The refusal of a call that is not refused, in words: number 0, node 0
pub const DONE: Refusal = Refusal {
    number: numbers::DONE,
    node: 0,
};

// Number and node of the refusal, 0 and 0 where there is none.
pub fn two_words<T: Copy>(answer: Result<T, Refusal>) -> [u64; 2]
    ensures { result ≡ refusal_words (refusal_said answer) }
{
    match answer {
        Ok(_) => [0, 0],
        Err(refusal) => [refusal.number as u64, refusal.node as u64],
    }
}

// Number, node, what was found, the assignment at which, then state, width and value of the first answer and of the
// second.
pub fn of_result(
    refusal: Refusal,
    found: u64,
    index: u64,
    first: Answer,
    second: Answer,
) -> [u64; 10]
    ensures { result ≡ result_words refusal found index first second }
{
    let one = words_of(first);
    let two = words_of(second);
    [
        refusal.number as u64,
        refusal.node as u64,
        found,
        index,
        one.state,
        one.width,
        one.value,
        two.state,
        two.width,
        two.value,
    ]
}
