// Input bytes to a row, and the bit of a program there: what `eval_lut` and `eval_lut_bv` share, which is all but the order
// in which the bytes are read (document 01, "Truth-table routines").
ghost use Rattle.std.specs.Prelude.{◌≡◌, true};
ghost use Rattle.meaning.specs.Rules.Tables.{lut_bit_says, lut_inputs, are_bits, row_from};
ghost use Rattle.tables.specs.Inputs.{read_in, eval_read, shifted_in};

use super::range::in_range;
use bits::bit_at;
use meaning::OutOfRange;
use meaning::limits::MOST_OPERANDS;

// Is every byte 0 or 1?
fn are_bits(inputs: &[u8]) -> bool
    ensures { result ≡ are_bits inputs.now }
{
    inputs.iter().all(|byte| *byte < 2)
}

// At most six bytes, of 0 or 1.
fn inputs_fit(inputs: &[u8]) -> bool
    ensures { result ≡ lut_inputs inputs.now }
{
    inputs.len() <= MOST_OPERANDS && are_bits(inputs)
}

// The row with one input more, as its low bit.
fn with_input(row: u64, input: &u8) -> u64
    ensures { result ≡ shifted_in row input.now }
{
    row << 1 | *input as u64
}

// The row that the bytes are, the one read first its high bit: from the front, or from the back.
fn row_of(inputs: &[u8], forward: bool) -> u64
    requires { lut_inputs inputs.now ≡ true }
    ensures { result ≡ row_from 0 (read_in forward inputs.now) }
{
    if forward {
        inputs.iter().fold(0, with_input)
    } else {
        inputs.iter().rev().fold(0, with_input)
    }
}

// Inner: the bit of program `p` at that row.
#[tactic(auto, using(crate::specs::Inputs::row_in_word))]
pub(crate) fn eval_read(p: u64, inputs: &[u8], forward: bool) -> Result<bool, OutOfRange>
    ensures { lut_bit_says result ≡ eval_read forward p inputs.now }
{
    in_range(inputs_fit(inputs))?;
    Ok(bit_at(p, row_of(inputs, forward)) == 1)
}
