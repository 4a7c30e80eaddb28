// The verifier (document 01, "Verification", "Evaluable", "Order"; 000, `verify_expr`). The plain meaning is
// meaning's Rules/Calls, `verify`, over Rules/Layout, Verification and Evaluable; that yes or no equals the Rust's
// walk path by path is Claims/PathByPath. A user calls `verify_expr`, with any words at all. `sound` is what the
// calls that need a value share: the whole row of numbers 3 to 8 for one list, which leaves marks and shapes in its
// columns (specs/Left). Every pass looks a bounded number of times at each node and at each of its children; parts of the
// pool may overlap, so these can be more than the pool has entries.
#![tactic(auto)]

ghost use Rattle.std.specs.Prelude.{◌≡◌, ◌+◌, ◌*◌, ◌≤◌, length};
ghost use Rattle.meaning.specs.Rules.Limits.{most_nodes, work_per_node};
ghost use Rattle.meaning.specs.Rules.Trees.{node_count};
ghost use Rattle.meaning.specs.Rules.Refusals.{answered, ◌then◌};
ghost use Rattle.meaning.specs.Rules.Layout.{layout};
ghost use Rattle.meaning.specs.Rules.Verification.{verification};
ghost use Rattle.meaning.specs.Rules.Evaluable as rule;
ghost use Rattle.meaning.specs.Rules.Calls as calls;
ghost use Rattle.marks.specs.Marked.{Marked};
ghost use Rattle.shapes.specs.Shapes.{Shaped};
ghost use Rattle.verifier.specs.Left.{verified_work, sound_work};

use columns::{MARK, clear, get};
use faults::verify_fault;
use lists::layout::layout_fault;
use marks::mark_reached;
use meaning::Refusal;
use meaning::numbers::NO_ROOT;
use nodes::node_count;
use refusals::require;
use search::lowest_fault;
use shapes::fit::shape_fault;
use shapes::step::write_shapes;
use sizes::lent;

// Numbers 1, 2, 10, 3, 4, 5 and 6, in that order, for any input; never 7 or 8. The work space is untouched after 1, 2 and
// 10, and else all zeros.
#[tactic(auto, using(crate::specs::Outcome::call))]
pub fn verify_expr(nodes: &[u32], pool: &[u32], work: &mut [u64]) -> Result<(), Refusal>
    ensures value { result ≡ answered (calls.verify nodes.now pool.now work.old).answer }
    ensures work_after { work.new ≡ (calls.verify nodes.now pool.now work.old).work }
{
    lent(nodes, pool, work.len())?;
    let answer = verified(nodes, pool, 0, work);
    clear(work);
    answer
}

// Inner: "then list by list 3, 4, 5 .., 6, 7, 8", for a list past numbers 1, 2 and 10 whose first row is `base`. A
// list that passes has its marks and shapes in the work space.
#[tactic(auto, using(crate::specs::Answered::to_8))]
pub fn sound(nodes: &[u32], pool: &[u32], base: usize, work: &mut [u64]) -> Result<(), Refusal>
    requires nodes_bound { node_count nodes.now ≤ most_nodes }
    requires nodes_in_bounds { work_per_node * (base + node_count nodes.now) ≤ length work.old }
    ensures value { result ≡ answered (rule.sound nodes.now pool.now) }
    ensures work_after { work.new ≡ sound_work nodes.now pool.now base work.old }
{
    verified(nodes, pool, base, work)?;
    require(node_count(nodes) > 0, NO_ROOT)?;
    write_shapes(nodes, pool, base, work);
    evaluable(nodes, pool, base, work)
}

// Numbers 3 to 6, which leave the marks of a list past 5.
#[tactic(auto, using(crate::specs::Answered::to_6))]
fn verified(nodes: &[u32], pool: &[u32], base: usize, work: &mut [u64]) -> Result<(), Refusal>
    requires nodes_bound { node_count nodes.now ≤ most_nodes }
    requires nodes_in_bounds { work_per_node * (base + node_count nodes.now) ≤ length work.old }
    ensures value { result ≡ answered (layout nodes.now pool.now then verification nodes.now pool.now) }
    ensures work_after { work.new ≡ verified_work nodes.now pool.now base work.old }
{
    laid(nodes, pool)?;
    mark_reached(nodes, pool, base, work);
    verifies(nodes, pool, base, work)
}

// Numbers 3 to 5, "at the lowest faulty node".
fn laid(nodes: &[u32], pool: &[u32]) -> Result<(), Refusal>
    requires { node_count nodes.now ≤ most_nodes }
    ensures { result ≡ answered (layout nodes.now pool.now) }
{
    lowest_fault(node_count(nodes), |i| layout_fault(nodes, pool, i))
}

// Number 6, of a list that has its marks in the work space.
fn verifies(nodes: &[u32], pool: &[u32], base: usize, work: &[u64]) -> Result<(), Refusal>
    requires nodes_bound { node_count nodes.now ≤ most_nodes }
    requires marked { Marked nodes.now pool.now base work.now }
    ensures { result ≡ answered (verification nodes.now pool.now) }
{
    lowest_fault(node_count(nodes), |i| {
        verify_fault(nodes, pool, i, get(work, MARK, base + i))
    })
}

// Number 8, of a list that has its marks and its shapes there.
fn evaluable(nodes: &[u32], pool: &[u32], base: usize, work: &[u64]) -> Result<(), Refusal>
    requires nodes_bound { node_count nodes.now ≤ most_nodes }
    requires marked { Marked nodes.now pool.now base work.now }
    requires shaped { Shaped nodes.now pool.now base work.now }
    ensures { result ≡ answered (rule.evaluability nodes.now pool.now) }
{
    lowest_fault(node_count(nodes), |i| {
        shape_fault(nodes, pool, base, work, i, get(work, MARK, base + i))
    })
}
