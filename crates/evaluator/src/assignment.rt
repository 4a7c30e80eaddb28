// Number 12: the assignment's bytes (document 01, "an assignment slice over 256 bytes, or a byte above 2").
ghost use Rattle.std.specs.Prelude.{◌≡◌, leb};
ghost use Rattle.meaning.specs.Rules.Refusals.{every};
ghost use Rattle.meaning.specs.Rules.Answers.{undriven_byte};
ghost use Rattle.meaning.specs.Rules.Assignments.{is_assignment};

use meaning::limits::VARIABLE_COUNT;
use operators::UNDRIVEN_BYTE;

// A slice that is too long is not read.
#[tactic(auto, unfolding(meaning::specs::Rules::Assignments::is_assignment))]
pub(crate) fn is_assignment(bytes: &[u8]) -> bool
    ensures { result ≡ is_assignment bytes.now }
{
    bytes.len() <= VARIABLE_COUNT && all_known(bytes)
}

// Is every byte 0, 1 or 2?
fn all_known(bytes: &[u8]) -> bool
    ensures { result ≡ every (λ b. leb b undriven_byte) bytes.now }
{
    bytes.iter().all(|byte| *byte <= UNDRIVEN_BYTE)
}
