// Number 14 of one node (document 01: "canonicaliser: a reachable gate (kinds 4 to 8) that isn't a bit").
ghost use Rattle.std.specs.Prelude.{◌≡◌, ℕ, cond, not, ◌&&◌, ltb, eqb};
ghost use Rattle.meaning.specs.Rules.Kinds.{kind_of, is_gate};
ghost use Rattle.meaning.specs.Rules.Numbers.{wide_gate};
ghost use Rattle.meaning.specs.Rules.Refusals.{numbered};

use super::step::A_BIT;
use meaning::kinds::Kind;
use meaning::numbers::WIDE_GATE;

// An Err is number 14, of a node with that kind, mark and shape, as the work space holds them. It is asked of the list as
// it is given: what folding would make of the gate does not matter.
#[tactic(auto, using(meaning::proofs::Laws::KindLaws::gate_word))]
pub fn gate_fault(kind: Kind, mark: u64, shape: u64) -> Result<(), u32>
    ensures { (word : ℕ) → kind_of word ≡ kind → result ≡ numbered (cond (ltb 0 mark && is_gate word && not (eqb shape 1)) wide_gate 0) }
{
    match kind {
        Kind::Nor | Kind::Mux | Kind::And | Kind::Xor | Kind::Not if mark > 0 && shape != A_BIT => {
            Err(WIDE_GATE)
        }
        _ => Ok(()),
    }
}
