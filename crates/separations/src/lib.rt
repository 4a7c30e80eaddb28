// Whether two answers are one, and the results of a separation (document 01, "Comparison and separation"; added). The
// plain meaning is meaning's Rules/Separation and, of two answers, `same_answer` of Rules/Comparison; each call's
// contract is an equation with the definition of its name there. The crate `separator` makes these calls; a user reads
// their fields.
#![tactic(auto)]

ghost use Rattle.std.specs.Prelude.{◌≡◌};
ghost use Rattle.meaning.specs.Rules.Comparison.{same_answer};
ghost use Rattle.meaning.specs.Rules.Separation as rule;

use comparisons::blank;
use meaning::{Answer, Judgement, Separation};

// "the same answer, value or named failure": failing with 2 is not failing with 3, and widths count.
pub fn same_answer(first: Answer, second: Answer) -> bool
    ensures { result ≡ same_answer first second }
{
    first == second
}

// "for Separate the rest is zero"
pub fn separated() -> Separation
    ensures { result ≡ rule.found rule.separated }
{
    Separation {
        judgement: Judgement::Separate,
        index: 0,
        run: blank(),
        cleared: blank(),
    }
}

// "Crossing carries i and the answers at i and at i with its run bits cleared"
pub fn crossing_at(index: u64, run: Answer, cleared: Answer) -> Separation
    ensures { result ≡ rule.found (rule.crossing_at index run cleared) }
{
    Separation {
        judgement: Judgement::Crossing,
        index,
        run,
        cleared,
    }
}
