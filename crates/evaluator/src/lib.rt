// The evaluator (document 01, "Answers of a node", "Order"; 000, `eval`). The plain meaning is meaning's Rules/Calls,
// `evaluate`: the answer, the work space and the output of a call, for any words at all. A user calls `eval`, whose
// contract is that equation. The work is done by `verifier::sound` (numbers 3 to 8) and `roots::root_under`; here stand
// number 12 (`assignment`), the output (`output`) and the order of the refusals.
#![tactic(auto)]

mod assignment;
mod output;

ghost use Rattle.std.specs.Prelude.{◌≡◌, ◌*◌, ◌≤◌, length};
ghost use Rattle.meaning.specs.Rules.Limits.{most_nodes, work_per_node};
ghost use Rattle.meaning.specs.Rules.Trees.{node_count};
ghost use Rattle.meaning.specs.Rules.Refusals.{answered};
ghost use Rattle.meaning.specs.Rules.Calls as calls;
ghost use Rattle.meaning.specs.Rules.Calls.{evaluation_result};
ghost use Rattle.verifier.specs.Left.{sound_work};
ghost use Rattle.evaluator.specs.Outcome.{rest_row, rest_answer, rest_output};

use assignment::is_assignment;
use columns::clear;
use meaning::numbers::{BAD_ASSIGNMENT, SHORT_OUTPUT};
use meaning::{Answer, Refusal};
use nodes::node_count;
use output::{PAIR, write_pairs};
use refusals::require;
use roots::root_under;
use sizes::lent;
use verifier::sound;

// Numbers 1, 2, 10, 3 to 8, 12 and 19, in that order, for any input; then the root's answer, and in `out` a pair of
// state and value for each node. A refusal leaves the output as it was; the work space is untouched after 1, 2 and
// 10, and else all zeros.
#[tactic(auto, using(crate::specs::Outcome::call))]
pub fn eval(
    nodes: &[u32],
    pool: &[u32],
    bytes: &[u8],
    work: &mut [u64],
    out: &mut [u64],
) -> Result<Answer, Refusal>
    ensures value { result ≡ evaluation_result (calls.evaluate nodes.now pool.now bytes.now work.old out.old).answer }
    ensures work_after { work.new ≡ (calls.evaluate nodes.now pool.now bytes.now work.old out.old).work }
    ensures out_after { out.new ≡ (calls.evaluate nodes.now pool.now bytes.now work.old out.old).out }
{
    lent(nodes, pool, work.len())?;
    let answer = evaluated(nodes, pool, bytes, work, out);
    clear(work);
    answer
}

// What is left past numbers 1, 2 and 10. The output is written last, when nothing can refuse any more.
#[tactic(auto, using(crate::specs::Done::past_19))]
fn evaluated(
    nodes: &[u32],
    pool: &[u32],
    bytes: &[u8],
    work: &mut [u64],
    out: &mut [u64],
) -> Result<Answer, Refusal>
    requires nodes_bound { node_count nodes.now ≤ most_nodes }
    requires nodes_in_bounds { work_per_node * node_count nodes.now ≤ length work.old }
    ensures value { result ≡ evaluation_result (rest_answer nodes.now pool.now bytes.now out.old) }
    ensures out_after { out.new ≡ rest_output nodes.now pool.now bytes.now out.old }
{
    accepted(nodes, pool, bytes, work, out.len())?;
    let root = root_under(nodes, pool, bytes, 0, work);
    write_pairs(work, node_count(nodes), out);
    Ok(root)
}

// "3, 4, 5 .., 6, 7, 8; then .. 12, .. and always last 19", for so many words of output.
fn accepted(
    nodes: &[u32],
    pool: &[u32],
    bytes: &[u8],
    work: &mut [u64],
    room: usize,
) -> Result<(), Refusal>
    requires nodes_bound { node_count nodes.now ≤ most_nodes }
    requires nodes_in_bounds { work_per_node * node_count nodes.now ≤ length work.old }
    ensures value { result ≡ answered (rest_row nodes.now pool.now bytes.now room) }
    ensures work_after { work.new ≡ sound_work nodes.now pool.now 0 work.old }
{
    sound(nodes, pool, 0, work)?;
    require(is_assignment(bytes), BAD_ASSIGNMENT)?;
    require(PAIR * node_count(nodes) <= room, SHORT_OUTPUT)
}
