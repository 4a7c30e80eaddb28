// Separation (document 01, "Comparison and separation", "Order"; added): demand 3, "The stop path borrows nothing from
// the run path". The plain meaning is meaning's Rules/Calls, `separate`, over Rules/Separation: the answer and the work
// space of a call, for any words at all; what a user reads from it is Claims/Demands, `demand_3_separate` and its
// neighbours. A user calls `separate`, whose contract is that equation. The work is done by `verifier::sound` (numbers
// 3 to 8), `bounds::bounded` (number 11) and `crossings::lowest_crossing` (the search); here stand the order of the
// refusals and what a crossing carries.
#![tactic(auto)]

mod numbered;

ghost use Rattle.std.specs.Prelude.{◌≡◌, true, ◌*◌, ◌≤◌, length};
ghost use Rattle.meaning.specs.Rules.Limits.{most_nodes, work_per_node};
ghost use Rattle.meaning.specs.Rules.Trees.{node_count, root_of};
ghost use Rattle.meaning.specs.Rules.Separation.{in_bounds, separate_tree, found, separation_result};
ghost use Rattle.meaning.specs.Rules.Calls as calls;
ghost use Rattle.rows.specs.Rows.{Prepared};
ghost use Rattle.inputs.specs.Driving.{Drivable};
ghost use Rattle.crossings.specs.Searching.{Searchable};
ghost use Rattle.separator.specs.Outcome.{rest_answer};

use bounds::bounded;
use columns::clear;
use crossings::lowest_crossing;
use crossings::trial::answer_under;
use input_bits::input_mask;
use inputs::driving::{no_variables, undriven};
use meaning::{Refusal, Separation};
use nodes::wide;
use numbered::name_variables;
use separations::{crossing_at, separated};
use sizes::lent;
use verifier::sound;

// Numbers 1, 2, 10, 3 to 8 and 11, in that order, and then the judgement, for any input: n declared variables, and
// marks on the run signals among them, bit v for variable v. The work space is untouched after 1, 2 and 10, and else
// all zeros.
#[tactic(auto, using(crate::specs::Outcome::call))]
pub fn separate(
    nodes: &[u32],
    pool: &[u32],
    n: u32,
    marks: u32,
    work: &mut [u64],
) -> Result<Separation, Refusal>
    ensures value { result ≡ separation_result (calls.separate nodes.now pool.now n marks work.old).answer }
    ensures work_after { work.new ≡ (calls.separate nodes.now pool.now n marks work.old).work }
{
    lent(nodes, pool, work.len())?;
    let separation = judged(nodes, pool, n, marks, work);
    clear(work);
    separation
}

// What is left past numbers 1, 2 and 10.
#[tactic(auto, using(crate::specs::Outcome::past_10))]
fn judged(
    nodes: &[u32],
    pool: &[u32],
    n: u32,
    marks: u32,
    work: &mut [u64],
) -> Result<Separation, Refusal>
    requires nodes_bound { node_count nodes.now ≤ most_nodes }
    requires nodes_in_bounds { work_per_node * node_count nodes.now ≤ length work.old }
    ensures { result ≡ separation_result (rest_answer nodes.now pool.now n marks) }
{
    sound(nodes, pool, 0, work)?;
    bounded(nodes, n, marks)?;
    Ok(judgement(nodes, pool, wide(n), marks as u64, work))
}

// The judgement of a list that nothing refuses. The search's own memory is a byte and a word for each variable number.
fn judgement(nodes: &[u32], pool: &[u32], n: usize, marks: u64, work: &mut [u64]) -> Separation
    requires prepared { Prepared nodes.now pool.now 0 work.old }
    requires marks_value { in_bounds nodes.now n marks ≡ true }
    ensures { result ≡ found (separate_tree (root_of nodes.now pool.now) n marks) }
{
    let mut variables = no_variables();
    name_variables(n, &mut variables);
    let inputs = input_mask(nodes, pool, n, work);
    let mut bytes = undriven();
    searched(
        nodes,
        pool,
        &variables[..n],
        inputs,
        marks,
        &mut bytes,
        work,
    )
}

// "Crossing carries i and the answers at i and at i with its run bits cleared; for Separate the rest is zero."
fn searched(
    nodes: &[u32],
    pool: &[u32],
    variables: &[usize],
    inputs: u64,
    marks: u64,
    bytes: &mut [u8],
    work: &mut [u64],
) -> Separation
    requires searchable { Searchable nodes.now pool.now variables.now inputs marks }
    requires prepared { Prepared nodes.now pool.now 0 work.old }
    requires drivable { Drivable variables.now bytes.old }
    ensures { result ≡ found (separate_tree (root_of nodes.now pool.now) (length variables.now) marks) }
{
    let Some(index) = lowest_crossing(nodes, pool, variables, inputs, marks, bytes, work) else {
        return separated();
    };
    let run = answer_under(nodes, pool, variables, index, bytes, work);
    let cleared = answer_under(nodes, pool, variables, index & !marks, bytes, work);
    crossing_at(index, run, cleared)
}
