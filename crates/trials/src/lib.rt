// One assignment tried on two lists (document 01, "Comparison and separation": "bit j of assignment i drives the j-th
// smallest variable below the first root; the second list's others are undriven"). The plain meaning is meaning's
// `answer` of both roots under `drive`; the contract says it, and what is left of the lent space, whole (specs/Trial).
// A caller has both lists accepted, the second's rows behind the first's, and calls `answers_at` for index after
// index: nothing is done for an assignment but driving the variables and one pass over each list.
#![tactic(auto)]

ghost use Rattle.std.specs.Prelude.{◌≡◌};
ghost use Rattle.meaning.specs.Rules.Assignments as assignments;
ghost use Rattle.inputs.specs.Driving.{Drivable};
ghost use Rattle.trials.specs.Trial.{BothPrepared, roots_under, tried_work};

use inputs::driving::drive;
use meaning::Answer;
use nodes::node_count;
use roots::root_under;

// The answers of both roots
#[derive(Clone, Copy)]
pub struct Roots {
    pub first: Answer,
    pub second: Answer,
}

// Inner: the answers under assignment `index` of the variables.
pub fn answers_at(
    nodes: &[u32],
    pool: &[u32],
    second_nodes: &[u32],
    second_pool: &[u32],
    variables: &[usize],
    index: u64,
    bytes: &mut [u8],
    work: &mut [u64],
) -> Roots
    requires both_prepared { BothPrepared nodes.now pool.now second_nodes.now second_pool.now work.old }
    requires drivable { Drivable variables.now bytes.old }
    ensures value { result ≡ roots_under nodes.now pool.now second_nodes.now second_pool.now (assignments.drive variables.now index) }
    ensures work_after { work.new ≡ tried_work nodes.now pool.now second_nodes.now second_pool.now (assignments.drive variables.now index) work.old }
    ensures bytes_after { assignments.given bytes.new ≡ assignments.drive variables.now index }
{
    drive(variables, index, bytes);
    Roots {
        first: root_under(nodes, pool, bytes, 0, work),
        second: root_under(second_nodes, second_pool, bytes, node_count(nodes), work),
    }
}
