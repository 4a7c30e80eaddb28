// The canonicaliser (document 01, "Canonical list", "Order"; 000, `canonicalize_expr`). The plain meaning is meaning's
// Rules/Calls, `canonicalise`, over Rules/Folding, `nf`, and Rules/Listing: the answer, the work space and both outputs
// of a call, for any words at all. A user calls `canonicalize_expr`, whose contract is that equation; that a separation
// of its list judges as one of the given list is specs/Demand. The Rust hands two closures to one walk over its terms;
// here they are two passes with names: `forms::write_forms` folds every node, `listing::list_subtrees` lists each
// subtree once. What is made belongs to the new list alone: both passes keep it in the work space, by the given list's
// nodes, and a number of the new list is given only when its node is listed. Here stand the order of the refusals and
// the output, which `list_output` writes when nothing can refuse any more.
#![tactic(auto)]

mod output;

ghost use Rattle.std.specs.Prelude.{◌≡◌, ◌<◌, ◌*◌, ◌≤◌, length};
ghost use Rattle.meaning.specs.Rules.Limits.{most_nodes, work_per_node};
ghost use Rattle.meaning.specs.Rules.Trees.{node_count};
ghost use Rattle.meaning.specs.Rules.Refusals.{answered, numbered};
ghost use Rattle.meaning.specs.Rules.Canonical.{gates};
ghost use Rattle.meaning.specs.Rules.Canonical as rule;
ghost use Rattle.marks.specs.Marked.{Marked};
ghost use Rattle.shapes.specs.Shapes.{Shaped};
ghost use Rattle.meaning.specs.Rules.Calls as calls;
ghost use Rattle.verifier.specs.Left.{sound_work};
ghost use Rattle.canonicaliser.specs.Outcome.{accepted_row, rest_answer, rest_nodes, rest_pool};

use columns::{MARK, SHAPE, clear, get};
use forms::write_forms;
use listing::list_subtrees;
use meaning::{Canonical, Refusal};
use nodes::{kind_of, node_count};
use output::put_list;
use search::lowest_fault;
use shapes::gate::gate_fault;
use sizes::lent;
use verifier::sound;

// Numbers 1, 2, 10, 3 to 8, 14 and 19, in that order, for any input; then the canonical list at the start of the two
// output slices, and how many words of each it takes. A refusal leaves both as they were; the work space is untouched
// after 1, 2 and 10, and else all zeros.
#[tactic(auto, using(crate::specs::Outcome::call))]
pub fn canonicalize_expr(
    nodes: &[u32],
    pool: &[u32],
    work: &mut [u64],
    out_nodes: &mut [u32],
    out_pool: &mut [u32],
) -> Result<Canonical, Refusal>
    ensures value { result ≡ calls.canonical_result (calls.canonicalise nodes.now pool.now work.old out_nodes.old out_pool.old).answer }
    ensures work_after { work.new ≡ (calls.canonicalise nodes.now pool.now work.old out_nodes.old out_pool.old).work }
    ensures out_nodes_after { out_nodes.new ≡ (calls.canonicalise nodes.now pool.now work.old out_nodes.old out_pool.old).out_nodes }
    ensures out_pool_after { out_pool.new ≡ (calls.canonicalise nodes.now pool.now work.old out_nodes.old out_pool.old).out_pool }
{
    lent(nodes, pool, work.len())?;
    let canonical = canonicalised(nodes, pool, work, out_nodes, out_pool);
    clear(work);
    canonical
}

// What is left past numbers 1, 2 and 10.
#[tactic(auto, using(crate::specs::Accepted::past_10))]
fn canonicalised(
    nodes: &[u32],
    pool: &[u32],
    work: &mut [u64],
    out_nodes: &mut [u32],
    out_pool: &mut [u32],
) -> Result<Canonical, Refusal>
    requires nodes_bound { node_count nodes.now ≤ most_nodes }
    requires nodes_in_bounds { work_per_node * node_count nodes.now ≤ length work.old }
    ensures value { result ≡ calls.canonical_result (rest_answer nodes.now pool.now (length out_nodes.old) (length out_pool.old)) }
    ensures out_nodes_after { out_nodes.new ≡ rest_nodes nodes.now pool.now out_nodes.old (length out_pool.old) }
    ensures out_pool_after { out_pool.new ≡ rest_pool nodes.now pool.now (length out_nodes.old) out_pool.old }
{
    accepted(nodes, pool, work)?;
    write_forms(nodes, pool, work);
    let count = list_subtrees(nodes, pool, work);
    put_list(nodes, pool, work, count, out_nodes, out_pool)
}

// "3, 4, 5 .., 6, 7, 8; then .. 14": asked of the list as it is given, before anything is folded. A list that passes has
// its marks and shapes in the work space.
#[tactic(auto, using(crate::specs::Accepted::past_8))]
fn accepted(nodes: &[u32], pool: &[u32], work: &mut [u64]) -> Result<(), Refusal>
    requires nodes_bound { node_count nodes.now ≤ most_nodes }
    requires nodes_in_bounds { work_per_node * node_count nodes.now ≤ length work.old }
    ensures value { result ≡ answered (accepted_row nodes.now pool.now) }
    ensures work_after { work.new ≡ sound_work nodes.now pool.now 0 work.old }
{
    sound(nodes, pool, 0, work)?;
    gated(nodes, pool, work)
}

// Number 14, "at the lowest faulty node", of a list that has its marks and its shapes in the work space.
fn gated(nodes: &[u32], pool: &[u32], work: &[u64]) -> Result<(), Refusal>
    requires nodes_bound { node_count nodes.now ≤ most_nodes }
    requires marked { Marked nodes.now pool.now 0 work.now }
    requires shaped { Shaped nodes.now pool.now 0 work.now }
    ensures { result ≡ answered (gates nodes.now pool.now) }
{
    lowest_fault(node_count(nodes), |i| gate_at(nodes, pool, work, i))
}

// Number 14 of node i.
fn gate_at(nodes: &[u32], pool: &[u32], work: &[u64], i: usize) -> Result<(), u32>
    requires i_bound { i < node_count nodes.now }
    requires marked { Marked nodes.now pool.now 0 work.now }
    requires shaped { Shaped nodes.now pool.now 0 work.now }
    ensures { result ≡ numbered (rule.gate_fault nodes.now pool.now i) }
{
    gate_fault(kind_of(nodes, i), get(work, MARK, i), get(work, SHAPE, i))
}
