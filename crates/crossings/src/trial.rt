// One assignment tried: "bit v drives variable v".
ghost use Rattle.std.specs.Prelude.{◌≡◌, not, length};
ghost use Rattle.meaning.specs.Rules.Trees.{root_of};
ghost use Rattle.meaning.specs.Rules.Assignments.{upto};
ghost use Rattle.meaning.specs.Rules.Comparison.{same_answer};
ghost use Rattle.rows.specs.Rows.{Prepared};
ghost use Rattle.inputs.specs.Driving.{Drivable};
ghost use Rattle.crossings.specs.Lowest.{answer_at};

use inputs::driving::drive;
use meaning::Answer;
use roots::root_under;
use separations::same_answer;

// Inner: the root's answer at assignment `index` of the variables 0, 1, ...
pub fn answer_under(
    nodes: &[u32],
    pool: &[u32],
    variables: &[usize],
    index: u64,
    bytes: &mut [u8],
    work: &mut [u64],
) -> Answer
    requires variables_value { variables.now ≡ upto (length variables.now) }
    requires prepared { Prepared nodes.now pool.now 0 work.old }
    requires drivable { Drivable variables.now bytes.old }
    ensures value { result ≡ answer_at (root_of nodes.now pool.now) (length variables.now) index }
    ensures prepared_2 { Prepared nodes.now pool.now 0 work.new }
    ensures drivable_2 { Drivable variables.now bytes.new }
{
    drive(variables, index, bytes);
    root_under(nodes, pool, bytes, 0, work)
}

// Does the assignment answer otherwise than its cleared self?
pub(crate) fn differs_at(
    nodes: &[u32],
    pool: &[u32],
    variables: &[usize],
    index: u64,
    cleared: Answer,
    bytes: &mut [u8],
    work: &mut [u64],
) -> bool
    requires variables_value { variables.now ≡ upto (length variables.now) }
    requires prepared { Prepared nodes.now pool.now 0 work.old }
    requires drivable { Drivable variables.now bytes.old }
    ensures value { result ≡ not (same_answer (answer_at (root_of nodes.now pool.now) (length variables.now) index) cleared) }
    ensures prepared_2 { Prepared nodes.now pool.now 0 work.new }
    ensures drivable_2 { Drivable variables.now bytes.new }
{
    let answer = answer_under(nodes, pool, variables, index, bytes, work);
    !same_answer(answer, cleared)
}
