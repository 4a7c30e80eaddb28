// Rule 3, "k above 1: drop the first constant operand; if none, the first operand that no row pair depends on; the
// program keeps the rows left in order". The operands are given by their homes.
ghost use Rattle.std.specs.Prelude.{◌≡◌, ◌+◌, ◌-◌, ◌≤◌, ◌<◌, length, take};
ghost use Rattle.meaning.specs.Rules.Limits.{most_operands};
ghost use Rattle.meaning.specs.Rules.Tables as meant;
ghost use Rattle.meaning.specs.Rules.Tables.{but_one};
ghost use Rattle.form_rows.specs.First.{IsFirst};
ghost use Rattle.folding.specs.Folded.{Each, Readable, constant_at, ignored_at, next_of};

use form_rows::{CONSTANT, datum_in, kind_in};
use table_rows::{cofactor, ignores};

// the operand that rule 3 drops, and the program over those left
#[derive(Clone, Copy)]
pub(crate) struct Dropped {
    pub(crate) at: usize,
    pub(crate) program: u64,
}

// Inner: what rule 3 says of two operands or more; of some, that none is dropped.
pub(crate) fn next_rule(program: u64, operands: &[u64], work: &[u64]) -> Option<Dropped>
    requires in_bounds { (1 < length operands.now) × (length operands.now ≤ most_operands) }
    requires each { Each (Readable work.now) operands.now }
    ensures { result ≡ next_of work.now program operands.now }
{
    let count = operands.len();
    if let Some(at) = first_constant(operands, work) {
        let bit = datum_in(work, operands[at] as usize);
        return Some(Dropped {
            at,
            program: tied(program, count, at, bit),
        });
    }
    let at = first_ignored(program, count)?;
    Some(Dropped {
        at,
        program: tied(program, count, at, 0),
    })
}

// The first operand that is a constant.
fn first_constant(operands: &[u64], work: &[u64]) -> Option<usize>
    requires { Each (Readable work.now) operands.now }
    ensures { IsFirst (constant_at work.now operands.now) (length operands.now) result }
{
    operands
        .iter()
        .position(|&operand| kind_in(work, operand as usize) == CONSTANT)
}

// The first operand that no row pair depends on.
fn first_ignored(program: u64, count: usize) -> Option<usize>
    requires { (1 < count) × (count ≤ most_operands) }
    ensures { IsFirst (ignored_at program count) count result }
{
    let last = count as u64 - 1;
    (0..count).find(|&at| ignores(program, last, row_bit(count, at)))
}

// The program over the operands left, with operand `at` tied to a bit.
fn tied(program: u64, count: usize, at: usize, bit: u64) -> u64
    requires { (at < count) × ((count ≤ most_operands) × (bit < 2)) }
    ensures { result ≡ meant.cofactor program (count - 1) (count - 1 - at) bit }
{
    cofactor(program, count as u64 - 1, row_bit(count, at), bit)
}

// The first operand is the high row bit.
fn row_bit(count: usize, at: usize) -> u64
    requires { at < count }
    ensures { result ≡ count - 1 - at }
{
    (count - 1 - at) as u64
}

// Inner: takes operand `at` from the first `count` of the list; the later ones move down.
pub(crate) fn drop_at(operands: &mut [u64], count: usize, at: usize)
    requires { (at < count) × (count ≤ length operands.old) }
    ensures { take (count - 1) operands.new ≡ but_one at (take count operands.old) }
{
    operands.copy_within(at + 1..count, at);
}
