// The work space as a table: a row of WORK_PER_NODE words for each node, and a column for each thing that is kept of a
// node. Parts of one lent slice cannot be lent apart, so every pass takes the whole of it and goes by column and row. The
// plain meaning is specs/Columns.antt (`cell`, `with_column`); code reads by `get` and writes by `put`. The rows of a second
// list follow those of the first, so every pass also takes the number of its list's first row.
#![tactic(auto)]

ghost use Rattle.std.specs.Prelude.{◌≡◌, ◌<◌, length, set};
ghost use Rattle.meaning.specs.Rules.Lent.{cleared};
ghost use Rattle.columns.specs.Columns.{place, cell};

use meaning::limits::WORK_PER_NODE;

// 0 where no path leads to the node, else 1 + the least number of Cycle nodes over it (Rules/Reach, `mark_of`)
pub const MARK: usize = 0;

// 0 a Program, 1 a bit, n + 2 a bus of n (Rules/Evaluable, `shape_code`)
pub const SHAPE: usize = 1;

// 0 where the node answers a value, 1 to 4 a failure, 5 none (Rules/Pairs, `state_at`)
pub const STATE: usize = 2;

// the value, 0 where there is none (Rules/Pairs, `value_at`)
pub const VALUE: usize = 3;

// the lowest node with the same tree (classes, specs/Classes, `class_at`)
pub const CLASS: usize = 4;

// ---- the canonicaliser's: it answers and compares nothing, so it has the columns behind the shapes to itself

// the node whose row holds this node's normal form: itself, or the operand that a Lut of program 2 stands for
pub const HOME: usize = 2;

// the kind word of the normal form
pub const KIND: usize = 3;

// its datum; a Lut's program
pub const DATUM: usize = 4;

// its children, a Lut's Program not counted
pub const COUNT: usize = 5;

// a Lut's operands, by their homes: this column and the five behind it
pub const OPERAND: usize = 6;

// 0 a node not met yet, 1 one on the path that is being walked, else 2 + its number in the list that is made
pub const NUMBER: usize = 12;

// the number of a Lut's Program in that list
pub const PROGRAM_NUMBER: usize = 13;

// the nodes of that list, two to a row: this column and the one behind it
pub const LISTED: usize = 14;

// the path from the root to where the walk is, a node a row, and the child that is next at each. The marks and the
// shapes have served by then.
pub const STACK: usize = 0;

pub const NEXT: usize = 1;

// Inner: the word in a column of a row.
pub fn get(work: &[u64], column: usize, row: usize) -> u64
    requires { place column row < length work.now }
    ensures { result ≡ cell work.now column row }
{
    work[WORK_PER_NODE * row + column]
}

// Inner: stores a word in a column of a row, and leaves all others.
pub fn put(work: &mut [u64], column: usize, row: usize, word: u64)
    requires { place column row < length work.old }
    ensures { work.new ≡ set work.old (place column row) word }
{
    work[WORK_PER_NODE * row + column] = word;
}

// "Work space is .. all zeros after the call": the whole of it, however long. Any slice.
#[tactic(auto, unfolding(meaning::specs::Rules::Lent::cleared))]
pub fn clear(work: &mut [u64])
    ensures { work.new ≡ cleared work.old }
{
    work.fill(0);
}
