// The Lut that a node is: its program, its operands by their homes, and what it folds to.
ghost use Rattle.std.specs.Prelude.{◌≡◌, true, ◌+◌, ◌*◌, ◌≤◌, ◌<◌, length, take};
ghost use Rattle.meaning.specs.Rules.Limits.{work_per_node, most_operands};
ghost use Rattle.meaning.specs.Rules.Trees.{node_count, kind_at};
ghost use Rattle.meaning.specs.Rules.Kinds.{kind_of};
ghost use Rattle.meaning.specs.Rules.Reach.{mark_of};
ghost use Rattle.meaning.specs.Claims.Column.{Sound};
ghost use Rattle.folding.specs.Folded.{Each};
ghost use Rattle.forms.specs.Turns.{Turn};
ghost use Rattle.forms.specs.Operands.{folds, gate_program, operands_at, program_at, homes_of, Outcome};

use accepted::program_of;
use folding::{Folded, fold_lut};
use form_rows::home_of;
use lists::children::children_of;
use meaning::kinds::Kind;
use nodes::{kind_of, wide};

// Inner: is a node of this kind folded? The gates, kinds 4 to 8, and Lut are.
pub(crate) fn is_folded(kind: Kind) -> bool
    ensures { result ≡ folds kind }
{
    matches!(
        kind,
        Kind::Nor | Kind::Mux | Kind::And | Kind::Xor | Kind::Not | Kind::Lut
    )
}

// "Mux, And, Xor, Nor, Not become Luts of programs 202, 8, 6, 1, 1"
fn gate_program(kind: Kind) -> u64
    ensures { result ≡ gate_program kind }
{
    match kind {
        Kind::Mux => 202,
        Kind::And => 8,
        Kind::Xor => 6,
        _ => 1,
    }
}

// The program of a gate, or of a Lut.
fn program_at(nodes: &[u32], pool: &[u32], i: usize) -> u64
    requires sound { Sound nodes.now pool.now }
    requires i_bound { i < node_count nodes.now }
    requires i_nonzero { 0 < mark_of nodes.now pool.now i }
    ensures { result ≡ program_at nodes.now pool.now i }
{
    match kind_of(nodes, i) {
        Kind::Lut => program_of(nodes, pool, i),
        kind => gate_program(kind),
    }
}

// A gate's children, or a Lut's behind its Program.
fn operands_of<'a>(nodes: &[u32], pool: &'a [u32], i: usize) -> &'a [u32]
    requires sound { Sound nodes.now pool.now }
    requires i_bound { i < node_count nodes.now }
    requires i_nonzero { 0 < mark_of nodes.now pool.now i }
    ensures { result.now ≡ operands_at nodes.now pool.now i }
{
    let children = children_of(nodes, pool, i);
    match kind_of(nodes, i) {
        Kind::Lut => &children[1..],
        _ => children,
    }
}

// The homes of these nodes, into the front of the lent list.
fn read_homes(operands: &[u32], work: &[u64], homes: &mut [u64])
    requires operands_in_bounds { length operands.now ≤ length homes.old }
    requires each { Each (λ c. work_per_node * c + work_per_node ≤ length work.now) operands.now }
    ensures { take (length operands.now) homes.new ≡ homes_of work.now operands.now }
{
    for (j, operand) in operands.iter().enumerate() {
        homes[j] = home_of(work, wide(*operand)) as u64;
    }
}

// Inner: node i folded, its operands left in the front of the lent list.
pub(crate) fn folded_at(
    nodes: &[u32],
    pool: &[u32],
    i: usize,
    work: &[u64],
    homes: &mut [u64],
) -> Folded
    requires turn { Turn nodes.now pool.now work.now i }
    requires i_nonzero { 0 < mark_of nodes.now pool.now i }
    requires i_value { folds (kind_of (kind_at nodes.now i)) ≡ true }
    requires homes_len { length homes.old ≡ most_operands }
    ensures { Outcome nodes.now pool.now work.now i result homes.new }
{
    let operands = operands_of(nodes, pool, i);
    let count = operands.len();
    read_homes(operands, work, homes);
    let program = program_at(nodes, pool, i);
    fold_lut(program, &mut homes[..count], work)
}
