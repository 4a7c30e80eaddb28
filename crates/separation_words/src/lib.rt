// A separation's result as ten words (include/panel.h; document 01, "Crossing carries i and the answers at i and at i
// with its run bits cleared"): what crosses the C interface. The plain meaning is specs/Words, `separation_words`.
#![tactic(auto)]

ghost use Rattle.std.specs.Prelude.{◌≡◌};
ghost use Rattle.meaning.specs.Rules.Separation.{judgement_number, separation_said};
ghost use Rattle.separation_words.specs.Words.{separation_words};

use comparisons::blank;
use meaning::{Judgement, Refusal, Separation};
use result_words::{DONE, of_result};

// Number, node, judgement, index, then state, width and value of the answer there and of that with the run bits
// cleared; of a refusal "other fields zero (.. judgement Crossing, an answer width 0 and value 0)".
pub fn ten_words(separation: Result<Separation, Refusal>) -> [u64; 10]
    ensures { result ≡ separation_words (separation_said separation) }
{
    match separation {
        Ok(found) => of_result(
            DONE,
            judgement_number(found.judgement),
            found.index,
            found.run,
            found.cleared,
        ),
        Err(refusal) => of_result(
            refusal,
            judgement_number(Judgement::Crossing),
            0,
            blank(),
            blank(),
        ),
    }
}

// 0 Separate, 1 Crossing. A From would stand in meaning, away from the words.
pub fn judgement_number(judgement: Judgement) -> u64
    ensures { result ≡ judgement_number judgement }
{
    match judgement {
        Judgement::Separate => 0,
        Judgement::Crossing => 1,
    }
}
