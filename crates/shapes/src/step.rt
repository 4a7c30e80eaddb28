// The shape of every node, children first.
ghost use Rattle.std.specs.Prelude.{◌≡◌, List, ◌+◌, ◌*◌, ◌<◌, ◌≤◌, length};
ghost use Rattle.meaning.specs.Rules.Limits.{work_per_node};
ghost use Rattle.meaning.specs.Rules.Trees.{node_count};
ghost use Rattle.meaning.specs.Rules.Evaluable.{Shape, shape_code, nth_shape, shape_step};
ghost use Rattle.lists.specs.Laid.{Laid};
ghost use Rattle.columns.specs.Columns.{place, cell, shape_column, with_column};
ghost use Rattle.shapes.specs.Shapes.{Rows, Holds, shape_at};

use columns::{SHAPE, get, put};
use lists::children::children_of;
use meaning::kinds::Kind;
use nodes::{kind_of, node_count, wide};

// Codes of shapes (`shape_code`): 0 a Program, 1 a bit, n + 2 a bus of n. Numbers, since a word of the work space holds
// one.
pub(crate) const A_PROGRAM: u64 = 0;

pub(crate) const A_BIT: u64 = 1;

pub(crate) const A_BUS: u64 = 2;

// Inner: column SHAPE of every node of a list past numbers 3 to 5, whose first row is `base`; all else in the work space
// stays.
pub fn write_shapes(nodes: &[u32], pool: &[u32], base: usize, work: &mut [u64])
    requires laid { Laid nodes.now pool.now }
    requires nodes_in_bounds { work_per_node * (base + node_count nodes.now) ≤ length work.old }
    ensures { work.new ≡ with_column shape_column base (node_count nodes.now) (shape_at nodes.now pool.now) work.old }
{
    let n = node_count(nodes);
    for i in 0..n {
        let shape = shape_step(kind_of(nodes, i), children_of(nodes, pool, i), base, work);
        put(work, SHAPE, base + i, shape);
    }
}

// "And, Nor, Xor .. a Mux .. give that shape. Not and Cycle give their child's. Bus is a bus of its count; all else is a
// bit."
#[tactic(auto, using(crate::specs::Shapes::holds_length))]
fn shape_step(kind: Kind, children: &[u32], base: usize, work: &[u64]) -> u64
    requires { Rows work.now base children.now }
    ensures { (ss : List Shape) → Holds work.now base children.now ss → result ≡ shape_code (shape_step kind ss) }
{
    match kind {
        Kind::Program => A_PROGRAM,
        Kind::Nor | Kind::And | Kind::Xor | Kind::Not | Kind::Cycle => {
            nth_shape(children, base, work, 0)
        }
        Kind::Mux => nth_shape(children, base, work, 1),
        Kind::Bus => children.len() as u64 + A_BUS,
        _ => A_BIT,
    }
}

// The shape of the child at a place; a bit where there is none.
#[tactic(auto, using(crate::specs::Shapes::holds_nth, crate::specs::Shapes::holds_none))]
pub(crate) fn nth_shape(children: &[u32], base: usize, work: &[u64], at: usize) -> u64
    requires { Rows work.now base children.now }
    ensures { (ss : List Shape) → Holds work.now base children.now ss → result ≡ shape_code (nth_shape ss at) }
{
    match children.get(at) {
        Some(child) => shape_of(*child, base, work),
        None => A_BIT,
    }
}

// The shape of a child.
pub(crate) fn shape_of(child: u32, base: usize, work: &[u64]) -> u64
    requires { place shape_column (base + child) < length work.now }
    ensures { result ≡ cell work.now shape_column (base + child) }
{
    get(work, SHAPE, base + wide(child))
}
