// An assignment's bytes by its number (document 01, "Comparison and separation": "bit j of assignment i drives the j-th
// smallest variable"; "the second list's others are undriven"). Between two calls only the bytes of the variables
// change, so the others are made undriven once, by `undriven`.
ghost use Rattle.std.specs.Prelude.{◌≡◌, ◌<◌, ◌≤◌, length};
ghost use Rattle.meaning.specs.Rules.Limits.{variable_count, most_inputs};
ghost use Rattle.meaning.specs.Rules.Words.{bit_at};
ghost use Rattle.meaning.specs.Rules.Assignments as assignments;
ghost use Rattle.inputs.specs.Inputs.{AllBelow};
ghost use Rattle.inputs.specs.Driving.{OthersUndriven};
ghost use Rattle.inputs.specs.Room.{undriven_bytes, blanks};

use bits::bit_at;
use meaning::limits::VARIABLE_COUNT;
use operators::UNDRIVEN_BYTE;

// Inner: drives the variables by the bits of the index, the first by bit 0; all other bytes are undriven already. From
// the last variable down, so that the first of two that are alike would count, as in the meaning.
pub fn drive(variables: &[usize], index: u64, bytes: &mut [u8])
    requires variables_len_bound { length variables.now ≤ most_inputs }
    requires all_below { AllBelow (length bytes.old) variables.now }
    requires others_undriven { OthersUndriven variables.now bytes.old }
    ensures { assignments.given bytes.new ≡ assignments.drive variables.now index }
{
    for j in (0..variables.len()).rev() {
        bytes[variables[j]] = bit_byte(index, j);
    }
}

// A bit of the index as a byte.
fn bit_byte(index: u64, place: usize) -> u8
    requires { place < most_inputs }
    ensures { result ≡ bit_at index place }
{
    bit_at(index, place as u64) as u8
}

// The bytes of an assignment that drives nothing. Each of these is a call, so that a proof has an array of that length
// before it and not so many numbers.
pub fn undriven() -> [u8; VARIABLE_COUNT]
    ensures { result ≡ undriven_bytes variable_count }
{
    [UNDRIVEN_BYTE; VARIABLE_COUNT]
}

// Room for the variables below a root.
pub fn no_variables() -> [usize; VARIABLE_COUNT]
    ensures { result ≡ blanks variable_count }
{
    [0; VARIABLE_COUNT]
}
