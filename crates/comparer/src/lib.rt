// The comparison (document 01, "Comparison and separation", "Order"; 000, `func_equiv`): demand 2. The plain meaning
// is meaning's Rules/Calls, `compare`, over Rules/Comparison: the answer and the work space of a call, for any words
// at all; what a user reads from it is Claims/Demands, `demand_2_equiv` and its neighbours. A user calls `func_equiv`,
// whose contract is that equation. The work is done by `verifier::sound` (numbers 3 to 8), `classes::deep_equals` (the
// tree test), `inputs::get_input_set` (number 9) and, assignment after assignment, `trials::answers_at`; here stand
// the order of the refusals and the search (`lowest`).
#![tactic(auto)]

mod lowest;

ghost use Rattle.std.specs.Prelude.{◌≡◌, false, Ok, ◌+◌, ◌*◌, ◌≤◌, length};
ghost use Rattle.meaning.specs.Rules.Limits.{most_nodes, work_per_node};
ghost use Rattle.meaning.specs.Rules.Trees.{same, node_count, root_of};
ghost use Rattle.meaning.specs.Rules.Refusals.{answered};
ghost use Rattle.meaning.specs.Rules.Comparison.{comparison_result};
ghost use Rattle.meaning.specs.Rules.Calls as calls;
ghost use Rattle.trials.specs.Trial.{BothPrepared};
ghost use Rattle.comparer.specs.Outcome.{both_row, rest_answer, other_answer};

use classes::deep_equals;
use columns::clear;
use comparisons::equivalent;
use inputs::driving::{no_variables, undriven};
use inputs::get_input_set;
use lowest::lowest_deciding;
use meaning::limits::MOST_INPUTS;
use meaning::numbers::MANY_INPUTS;
use meaning::{Comparison, Refusal};
use nodes::node_count;
use refusals::require;
use sizes::lent_both;
use verifier::sound;

// Numbers 1 and 2 of the first list, then of the second; 10; 3 to 8 of the first, then of the second; the tree test;
// 9; and then the verdict, for any input. The work space is untouched after 1, 2 and 10, and else all zeros.
#[tactic(auto, using(crate::specs::Outcome::call))]
pub fn func_equiv(
    nodes: &[u32],
    pool: &[u32],
    second_nodes: &[u32],
    second_pool: &[u32],
    work: &mut [u64],
) -> Result<Comparison, Refusal>
    ensures value { result ≡ comparison_result (calls.compare nodes.now pool.now second_nodes.now second_pool.now work.old).answer }
    ensures work_after { work.new ≡ (calls.compare nodes.now pool.now second_nodes.now second_pool.now work.old).work }
{
    lent_both(nodes, pool, second_nodes, second_pool, work.len())?;
    let comparison = compared(nodes, pool, second_nodes, second_pool, work);
    clear(work);
    comparison
}

// What is left past numbers 1, 2 and 10. "Equal trees: Equiv, DC or not, however many variables."
#[tactic(auto, using(crate::specs::Outcome::past_10))]
fn compared(
    nodes: &[u32],
    pool: &[u32],
    second_nodes: &[u32],
    second_pool: &[u32],
    work: &mut [u64],
) -> Result<Comparison, Refusal>
    requires nodes_bound { (node_count nodes.now ≤ most_nodes) × (node_count second_nodes.now ≤ most_nodes) }
    requires second_nodes_in_bounds { work_per_node * (node_count nodes.now + node_count second_nodes.now) ≤ length work.old }
    ensures { result ≡ comparison_result (rest_answer nodes.now pool.now second_nodes.now second_pool.now) }
{
    both_sound(nodes, pool, second_nodes, second_pool, work)?;
    if deep_equals(nodes, pool, second_nodes, second_pool, work) {
        return Ok(equivalent());
    }
    other_trees(nodes, pool, second_nodes, second_pool, work)
}

// "list by list 3, 4, 5 .., 6, 7, 8": the second list's rows follow the first's.
#[tactic(auto, using(crate::specs::Both::one_by_one))]
fn both_sound(
    nodes: &[u32],
    pool: &[u32],
    second_nodes: &[u32],
    second_pool: &[u32],
    work: &mut [u64],
) -> Result<(), Refusal>
    requires nodes_bound { (node_count nodes.now ≤ most_nodes) × (node_count second_nodes.now ≤ most_nodes) }
    requires second_nodes_in_bounds { work_per_node * (node_count nodes.now + node_count second_nodes.now) ≤ length work.old }
    ensures value { result ≡ answered (both_row nodes.now pool.now second_nodes.now second_pool.now) }
    ensures both_prepared { result ≡ Ok tt → BothPrepared nodes.now pool.now second_nodes.now second_pool.now work.new }
{
    sound(nodes, pool, 0, work)?;
    sound(second_nodes, second_pool, node_count(nodes), work)
}

// "9: over 30 variables below the first root, trees unequal"; else the assignments decide.
#[tactic(auto, using(crate::specs::Outcome::past_trees))]
fn other_trees(
    nodes: &[u32],
    pool: &[u32],
    second_nodes: &[u32],
    second_pool: &[u32],
    work: &mut [u64],
) -> Result<Comparison, Refusal>
    requires { BothPrepared nodes.now pool.now second_nodes.now second_pool.now work.old }
    ensures { result ≡ comparison_result (other_answer (root_of nodes.now pool.now) (root_of second_nodes.now second_pool.now)) }
{
    let mut room = no_variables();
    let variables = get_input_set(nodes, pool, 0, work, &mut room);
    require(variables.len() <= MOST_INPUTS, MANY_INPUTS)?;
    let mut bytes = undriven();
    Ok(lowest_deciding(
        nodes,
        pool,
        second_nodes,
        second_pool,
        variables,
        &mut bytes,
        work,
    ))
}
