// A comparison's result as ten words (include/panel.h; document 01, "The result carries verdict, i and both answers"):
// what crosses the C interface. The plain meaning is specs/Words, `comparison_words`.
#![tactic(auto)]

ghost use Rattle.std.specs.Prelude.{◌≡◌};
ghost use Rattle.meaning.specs.Rules.Comparison.{comparison_said};
ghost use Rattle.meaning.specs.Rules.Verdict.{check_number};
ghost use Rattle.comparison_words.specs.Words.{comparison_words};

use comparisons::blank;
use meaning::{Check, Comparison, Refusal};
use result_words::{DONE, of_result};

// Number, node, verdict, index, then state, width and value of the first root and of the second; of a refusal "other
// fields zero (verdict Inconclusive, .. an answer width 0 and value 0)".
pub fn ten_words(comparison: Result<Comparison, Refusal>) -> [u64; 10]
    ensures { result ≡ comparison_words (comparison_said comparison) }
{
    match comparison {
        Ok(found) => of_result(
            DONE,
            verdict_number(found.verdict),
            found.index,
            found.first,
            found.second,
        ),
        Err(refusal) => of_result(
            refusal,
            verdict_number(Check::Inconclusive),
            0,
            blank(),
            blank(),
        ),
    }
}

// 0 Equiv, 1 NotEquiv, 2 Inconclusive. A From would stand in meaning, away from the words.
pub fn verdict_number(verdict: Check) -> u64
    ensures { result ≡ check_number verdict }
{
    match verdict {
        Check::Equiv => 0,
        Check::NotEquiv => 1,
        Check::Inconclusive => 2,
    }
}
