// The seven truth-table routines of lut.rs (document 01, "Truth-table routines"): what a program answers at a row, and
// programs over fewer or exchanged operands. The plain meaning of each is the definition of the same name in meaning's
// Rules/Tables; a user makes the calls below, with any numbers and bytes. Each call's contract joins the two: what its
// answer says, by number and values, is what the definition gives. No call traps: arguments out of range answer OutOfRange.
#![tactic(auto)]

mod inputs;
mod range;

ghost use Rattle.std.specs.Prelude.{◌≡◌};
ghost use Rattle.meaning.specs.Rules.Tables.{lut_bit_says, bit_vector_says, removed_says, table_program_says, cofactors_say};
ghost use Rattle.meaning.specs.Rules.Tables.{eval_lut, eval_lut_bv, to_bitvec, remove_lsb_var, eval_lut_const_input, cofactors_in_msb, swap_pos};

use bits::word_fits;
use inputs::eval_read;
use meaning::{BitVector, Cofactors, OutOfRange};
use range::in_range;
use table_rows::{cofactor, half, ignores, swapped, table_fits};

// The bit of program `p` at the row that the input bytes are, the first the high row bit. At most six bytes, of 0 or 1;
// any program, since every row number of six bits is a bit of a word (document 01, "any p").
#[tactic(auto, unfolding(meaning::specs::Rules::Tables::eval_lut))]
pub fn eval_lut(p: u64, inputs: &[u8]) -> Result<bool, OutOfRange>
    ensures { lut_bit_says result ≡ eval_lut p inputs.now }
{
    eval_read(p, inputs, true)
}

// The same with the first input the low row bit.
#[tactic(auto, unfolding(meaning::specs::Rules::Tables::eval_lut_bv))]
pub fn eval_lut_bv(p: u64, inputs: &[u8]) -> Result<bool, OutOfRange>
    ensures { lut_bit_says result ≡ eval_lut_bv p inputs.now }
{
    eval_read(p, inputs, false)
}

// A program as a bit vector: its width, and its bits as one word. Capacity 64 takes every program, and 0 only program 0
// (document 01, "capacity 0 takes only 0").
#[tactic(auto, unfolding(meaning::specs::Rules::Tables::to_bitvec))]
pub fn to_bitvec(p: u64, capacity: u64) -> Result<BitVector, OutOfRange>
    ensures { bit_vector_says result ≡ to_bitvec p capacity }
{
    in_range(word_fits(p, capacity))?;
    Ok(BitVector {
        width: capacity,
        value: p,
    })
}

// The program without its least significant operand, where no row pair depends on it. Below two operands the answer is
// None before `p` is looked at (document 01, "this comes first").
#[tactic(auto, unfolding(meaning::specs::Rules::Tables::remove_lsb_var))]
pub fn remove_lsb_var(p: u64, k: u64) -> Result<Option<u64>, OutOfRange>
    ensures { removed_says result ≡ remove_lsb_var p k }
{
    if k < 2 {
        return Ok(None);
    }
    in_range(table_fits(p, k))?;
    if !ignores(p, k - 1, 0) {
        return Ok(None);
    }
    Ok(Some(cofactor(p, k - 1, 0, 0)))
}

// The program with its most significant operand, row bit `msb`, tied to `v`. The range is tested before msb + 1 is formed,
// so that no msb wraps. The program is what must fit, and msb 5 is in range: the Rust asserts on msb itself, and panics at 5
// (document 01, "Slips").
#[tactic(auto, unfolding(meaning::specs::Rules::Tables::eval_lut_const_input))]
pub fn eval_lut_const_input(p: u64, msb: u64, v: bool) -> Result<u64, OutOfRange>
    ensures { table_program_says result ≡ eval_lut_const_input p msb v }
{
    in_range(msb <= 5 && table_fits(p, msb + 1))?;
    Ok(half(p, msb, v))
}

// Both halves: the programs with the most significant operand tied to 1 and to 0 (document 01, "high then low").
#[tactic(auto, unfolding(meaning::specs::Rules::Tables::cofactors_in_msb))]
pub fn cofactors_in_msb(p: u64, k: u64) -> Result<Cofactors, OutOfRange>
    ensures { cofactors_say result ≡ cofactors_in_msb p k }
{
    in_range(k >= 2 && table_fits(p, k))?;
    Ok(Cofactors {
        high: half(p, k - 1, true),
        low: half(p, k - 1, false),
    })
}

// The program with the operands at row bits `pos` and `pos + 1` exchanged, counted from the low end. pos + 1 is formed
// below k only, so that no pos wraps.
#[tactic(auto, unfolding(meaning::specs::Rules::Tables::swap_pos))]
pub fn swap_pos(p: u64, k: u64, pos: u64) -> Result<u64, OutOfRange>
    ensures { table_program_says result ≡ swap_pos p k pos }
{
    in_range(table_fits(p, k) && pos < k && pos + 1 < k)?;
    Ok(swapped(p, k, pos))
}
