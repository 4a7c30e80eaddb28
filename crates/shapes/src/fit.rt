// Number 8 of one node: does it fit its children's shapes?
ghost use Rattle.std.specs.Prelude.{◌≡◌, List, ◌&&◌, ◌+◌, ◌*◌, ◌<◌, ◌≤◌, length, drop, eqb};
ghost use Rattle.meaning.specs.Rules.Limits.{work_per_node};
ghost use Rattle.meaning.specs.Rules.Kinds.{program_word};
ghost use Rattle.meaning.specs.Rules.Trees.{node_count, kind_at};
ghost use Rattle.meaning.specs.Rules.Refusals.{every, numbered};
ghost use Rattle.meaning.specs.Rules.Reach.{mark_of};
ghost use Rattle.meaning.specs.Rules.Evaluable.{Shape, nth_shape, is_bit, alike, is_root, shape_fault};
ghost use Rattle.meaning.specs.Rules.Evaluable as rule;
ghost use Rattle.lists.specs.Laid.{Laid};
ghost use Rattle.columns.specs.Columns.{shape_column, Column};
ghost use Rattle.shapes.specs.Shapes.{Rows, Holds, code_stands, shape_at};
ghost use Rattle.shapes.specs.Shapes as shapes;

use super::step::{A_BIT, A_PROGRAM, nth_shape, shape_of};
use lists::children::children_of;
use meaning::kinds::Kind;
use meaning::numbers::NOT_EVALUABLE;
use nodes::{kind_of, node_count};

// Inner: an Err is number 8, of node i of a list past numbers 3 to 5, whose mark is given and whose lower nodes' shapes are
// in the work space. A node that is not reached has no fault; "a Program at the root is its own".
#[tactic(auto, using(crate::specs::Shapes::unreached, crate::specs::Shapes::reached))]
pub fn shape_fault(
    nodes: &[u32],
    pool: &[u32],
    base: usize,
    work: &[u64],
    i: usize,
    mark: u64,
) -> Result<(), u32>
    requires laid { Laid nodes.now pool.now }
    requires i_bound { i < node_count nodes.now }
    requires nodes_in_bounds { work_per_node * (base + node_count nodes.now) ≤ length work.now }
    requires mark_value { mark ≡ mark_of nodes.now pool.now i }
    requires column { Column work.now shape_column base i (shape_at nodes.now pool.now) }
    ensures { result ≡ numbered (shape_fault nodes.now pool.now i) }
{
    if mark == 0 {
        return Ok(());
    }
    if !fits(kind_of(nodes, i), children_of(nodes, pool, i), base, work) {
        return Err(NOT_EVALUABLE);
    }
    if root_program(nodes, i) {
        return Err(NOT_EVALUABLE);
    }
    Ok(())
}

// Is node i the root, and a Program?
#[tactic(auto, using(meaning::proofs::Laws::KindLaws::same_word))]
fn root_program(nodes: &[u32], i: usize) -> bool
    requires { i < node_count nodes.now }
    ensures { result ≡ (is_root nodes.now i && eqb (kind_at nodes.now i) program_word) }
{
    i + 1 == node_count(nodes) && kind_of(nodes, i) == Kind::Program
}

// Does a node of that kind fit over those children? "A misplaced child is its parent's fault". A Lut's first child,
// and an Arg's, verification has asked to be a Program.
fn fits(kind: Kind, children: &[u32], base: usize, work: &[u64]) -> bool
    requires { Rows work.now base children.now }
    ensures { (ss : List Shape) → Holds work.now base children.now ss → result ≡ rule.fits kind ss }
{
    match kind {
        Kind::Nor | Kind::And | Kind::Xor => alike_at(children, base, work, 0),
        Kind::Mux => mux_fits(children, base, work),
        Kind::Not | Kind::Cycle => nth_shape(children, base, work, 0) > A_PROGRAM,
        Kind::Lut => operands_fit(children, base, work),
        Kind::Bus => all_stand(children, base, work, true),
        Kind::Reg => all_stand(children, base, work, false),
        Kind::Unknown => false,
        _ => true,
    }
}

// "a Mux selector" is a bit, "a Mux two arms of one shape"
fn mux_fits(children: &[u32], base: usize, work: &[u64]) -> bool
    requires { Rows work.now base children.now }
    ensures { (ss : List Shape) → Holds work.now base children.now ss → result ≡ (is_bit (nth_shape ss 0) && alike (nth_shape ss 1) (nth_shape ss 2)) }
{
    nth_shape(children, base, work, 0) == A_BIT && alike_at(children, base, work, 1)
}

// "operands of one shape", and no Programs: the child at a place and the next.
fn alike_at(children: &[u32], base: usize, work: &[u64], at: usize) -> bool
    requires at_bound { at < 2 }
    requires rows { Rows work.now base children.now }
    ensures { (ss : List Shape) → Holds work.now base children.now ss → result ≡ alike (nth_shape ss at) (nth_shape ss (at + 1)) }
{
    let shape = nth_shape(children, base, work, at);
    shape > A_PROGRAM && shape == nth_shape(children, base, work, at + 1)
}

// "Lut operands .. are bits": the children behind its Program.
fn operands_fit(children: &[u32], base: usize, work: &[u64]) -> bool
    requires { Rows work.now base children.now }
    ensures { (ss : List Shape) → Holds work.now base children.now ss → result ≡ every is_bit (drop 1 ss) }
{
    match children {
        [] => true,
        [_, operands @ ..] => all_stand(operands, base, work, true),
    }
}

// "Lut operands, Bus members .. are bits; register operands are anything but Programs"
fn all_stand(children: &[u32], base: usize, work: &[u64], bits_only: bool) -> bool
    requires { Rows work.now base children.now }
    ensures { (ss : List Shape) → Holds work.now base children.now ss → result ≡ every (shapes.stands bits_only) ss }
{
    children
        .iter()
        .all(|&child| stands(shape_of(child, base, work), bits_only))
}

// May a child of that shape stand there?
fn stands(shape: u64, bits_only: bool) -> bool
    ensures { result ≡ code_stands bits_only shape }
{
    if bits_only {
        shape == A_BIT
    } else {
        shape > A_PROGRAM
    }
}
