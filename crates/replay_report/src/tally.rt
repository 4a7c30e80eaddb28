// All turns of a replay: the cases of a text one behind the other, counted. The plain meaning is specs/Tallies.antt.
ghost use Rattle.std.specs.Prelude.{◌≡◌, ℕ, ◌+◌, ◌^◌, ◌<◌, List, length, IfOk, IfSome};
ghost use Rattle.replay_report.specs.Turns.{GetsOn};
ghost use Rattle.replay_report.specs.Tallies.{OverText, Replayed, started};

use super::turn::{Fault, Tried};

// How many cases there were, and how many of them differ
#[derive(Clone, Copy)]
pub struct Tally {
    pub cases: u64,
    pub differ: u64,
}

// Tries case after case, each where the one before it ended, until a turn finds none or fails. Cases are numbered from 1,
// so that a case's number is its line's in a text of one case to a line. The turn gets on in the text, so they end.
pub fn replay<F: Fn(u64, &[u8], usize) -> Result<Option<Tried>, Fault>>(
    text: &[u8],
    turn: F,
) -> Result<Tally, Fault>
    requires callable { F.IsAlwaysCallable turn }
    requires gets_on { (number at : ℕ) (t : _) (r : _) → number < 2 ^ 64 → at < 2 ^ 64 → F.post turn number t at r
        → IfOk r (λ case. IfSome case (GetsOn (length t.now) (at + 1))) }
    ensures { (cases : List Tried) × Replayed (OverText (F.post turn) text.now) cases 0 started result }
{
    let mut at = 0;
    let mut tally = Tally {
        cases: 0,
        differ: 0,
    };
    while let Some(tried) = turn(tally.cases + 1, text, at)? {
        tally.cases += 1;
        tally.differ += u64::from(tried.differs);
        at = tried.next;
    }
    Ok(tally)
}
