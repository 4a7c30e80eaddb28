// A node's row of the work space as an answer (document 01, "Answers of a node": "0 and the value (its width is the
// node's shape), 1 to 4 for a failure and 0"). The plain meaning is specs/Rows, `from_row`; there too stand what the
// rows hold before the pass (`Prepared`) and while it goes (`Filled`).
#![tactic(auto)]

ghost use Rattle.std.specs.Prelude.{◌≡◌, ◌+◌, ◌*◌, ◌≤◌, length};
ghost use Rattle.meaning.specs.Rules.Limits.{work_per_node};
ghost use Rattle.meaning.specs.Rules.Evaluable.{Shape, shape_code, width_of};
ghost use Rattle.columns.specs.Columns.{cell, shape_column, state_column, value_column};
ghost use Rattle.rows.specs.Rows.{Wide, failure_numbered, from_row};

use columns::{SHAPE, STATE, VALUE, get};
use meaning::{Answer, Failure};
use shapes::width::width_of;

// The failure of that number: the state is a word of the work space, which is fixed memory.
fn failure_of(state: u64) -> Failure
    ensures { result ≡ failure_numbered state }
{
    match state {
        1 => Failure::Undriven,
        2 => Failure::DontCare,
        3 => Failure::Register,
        _ => Failure::Argument,
    }
}

// Inner: the answer that the row of a node shows which has one; s is the node's shape.
pub fn answer_at(work: &[u64], row: usize) -> Answer
    requires row_in_bounds { work_per_node * (row + 1) ≤ length work.now }
    requires wide { Wide work.now row }
    ensures { (s : Shape) → cell work.now shape_column row ≡ shape_code s → result ≡ from_row (width_of s) (cell work.now state_column row) (cell work.now value_column row) }
{
    match get(work, STATE, row) {
        0 => Answer::Value {
            width: width_of(get(work, SHAPE, row)),
            value: get(work, VALUE, row),
        },
        state => Answer::Failed(failure_of(state)),
    }
}
