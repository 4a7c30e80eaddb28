// What two answers decide, and the results of a comparison (document 01, "Comparison and separation"; 000,
// `func_equiv`). The plain meaning is meaning's Rules/Comparison, and each call's contract is an equation with the
// definition of its name there. The crate `comparer` makes these calls; a user reads their fields.
#![tactic(auto)]

ghost use Rattle.std.specs.Prelude.{◌≡◌};
ghost use Rattle.meaning.specs.Rules.Answers as answers;
ghost use Rattle.meaning.specs.Rules.Comparison as rule;

use meaning::{Answer, Check, Comparison};

// Do both have a value, "one equal value"? "Widths count: a one-member bus equals a bit".
pub fn agree(first: Answer, second: Answer) -> bool
    ensures { result ≡ rule.agree first second }
{
    is_value(first) && first == second
}

fn is_value(answer: Answer) -> bool
    ensures { result ≡ rule.is_value answer }
{
    matches!(answer, Answer::Value { .. })
}

// "for Equiv the rest is zero"
pub fn equivalent() -> Comparison
    ensures { result ≡ rule.found rule.equivalent }
{
    Comparison {
        verdict: Check::Equiv,
        index: 0,
        first: blank(),
        second: blank(),
    }
}

// "The result carries verdict, i and both answers", where assignment `index` decides.
pub fn decided_at(index: u64, first: Answer, second: Answer) -> Comparison
    ensures { result ≡ rule.found (rule.decided_at index first second) }
{
    Comparison {
        verdict: verdict_of(first, second),
        index,
        first,
        second,
    }
}

// "NotEquiv if both have values there, else Inconclusive"
fn verdict_of(first: Answer, second: Answer) -> Check
    ensures { result ≡ rule.verdict_of first second }
{
    if is_value(first) && is_value(second) {
        Check::NotEquiv
    } else {
        Check::Inconclusive
    }
}

// "an answer width 0 and value 0": what a refusal and a zero field show.
pub fn blank() -> Answer
    ensures { result ≡ answers.blank }
{
    Answer::Value { width: 0, value: 0 }
}
