// A node's row: where its normal form stands, and the form itself.
ghost use Rattle.std.specs.Prelude.{◌+◌, ◌*◌, ◌≤◌, ◌<◌, length};
ghost use Rattle.meaning.specs.Rules.Limits.{work_per_node, most_operands};
ghost use Rattle.meaning.specs.Rules.Reach.{mark_of};
ghost use Rattle.forms.specs.Turns.{Turn, Done, Beside};
ghost use Rattle.forms.specs.Operands.{Outcome};
ghost use Rattle.forms.specs.Stores.{RowAt, Placed, LutRow};

use columns::{COUNT, DATUM, HOME, KIND, OPERAND, put};
use folding::Folded;
use form_rows::{CONSTANT, LUT};

// Inner: a row's home, and the kind, the datum and the number of children of the form in it.
pub(crate) fn put_row(work: &mut [u64], i: usize, home: usize, kind: u64, datum: u64, count: usize)
    requires { work_per_node * i + work_per_node ≤ length work.old }
    ensures { RowAt work.old work.new i home kind datum count }
{
    put(work, HOME, i, home as u64);
    put(work, KIND, i, kind);
    put(work, DATUM, i, datum);
    put(work, COUNT, i, count as u64);
}

// The operands of a Lut, by their homes.
fn put_operands(work: &mut [u64], i: usize, homes: &[u64])
    requires work_per_node_in_bounds { work_per_node * i + work_per_node ≤ length work.old }
    requires homes_len_bound { length homes.now ≤ most_operands }
    ensures { Placed work.old work.new i homes.now (length homes.now) }
{
    for (j, home) in homes.iter().enumerate() {
        put(work, OPERAND + j, i, *home);
    }
}

// The Lut of this program over these operands.
fn put_lut(work: &mut [u64], i: usize, program: u64, homes: &[u64])
    requires work_per_node_in_bounds { work_per_node * i + work_per_node ≤ length work.old }
    requires homes_len_bound { length homes.now ≤ most_operands }
    ensures { LutRow work.old work.new i program homes.now }
{
    put_row(work, i, i, LUT, program, homes.len());
    put_operands(work, i, homes);
}

// Inner: what node i folds to. Where that is an operand, the operand's row is the node's home.
pub(crate) fn store_folded(
    nodes: &[u32],
    pool: &[u32],
    i: usize,
    folded: Folded,
    homes: &[u64],
    work: &mut [u64],
)
    requires turn { Turn nodes.now pool.now work.old i }
    requires i_nonzero { 0 < mark_of nodes.now pool.now i }
    requires outcome { Outcome nodes.now pool.now work.old i folded homes.now }
    ensures beside { Beside work.old work.new i }
    ensures done { Done nodes.now pool.now work.new i }
{
    match folded {
        Folded::Constant(bit) => put_row(work, i, i, CONSTANT, bit, 0),
        Folded::Operand(home) => put(work, HOME, i, home),
        Folded::Lut { program, count } => put_lut(work, i, program, &homes[..count]),
    }
}
