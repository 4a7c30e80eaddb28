// A case begins with a row of sixteen decimal words:
//   0 and 1 how many node words and pool entries    2 n    3 the marks    4 how many words of work space
//   5 to 15 what is expected, as `replay_results` reads it: what is found is the judgement, 0 Separate, 1 Crossing; the
//   first answer is that at the assignment, the second that with its run bits cleared
// Behind the row stand the node words and the pool entries. These, n and the marks are below 2^32.
ghost use Rattle.std.specs.Prelude.{◌≡◌, ◌≤◌, get_or};
ghost use Rattle.replay_separate.specs.Cases as cases;

use case_rows::ANY_WORD;
use list_room::{NODE_ROOM, POOL_ROOM, WORK_ROOM};
use replay_results::ROW_WORDS;

// The largest word of 32 bits, 2^32 - 1
const LARGEST: u64 = 4294967295;

// What is asked of a list: which variables there are, and which of them are run bits
#[derive(Clone, Copy)]
pub(crate) struct Bounds {
    pub(crate) n: u32,
    pub(crate) marks: u32,
}

pub(crate) fn bounds_of(row: &[u64; ROW_WORDS]) -> Bounds
    requires { (get_or row.now 2 0 ≤ cases.word_of32) × (get_or row.now 3 0 ≤ cases.word_of32) }
{
    Bounds {
        n: row[2] as u32,
        marks: row[3] as u32,
    }
}

// The largest word that may stand at each place of the row: where it is a size, the room that there is.
pub(crate) fn largest() -> [u64; ROW_WORDS]
    ensures { result ≡ cases.largest }
{
    [
        NODE_ROOM as u64,
        POOL_ROOM as u64,
        LARGEST,
        LARGEST,
        WORK_ROOM as u64,
        ANY_WORD,
        ANY_WORD,
        ANY_WORD,
        ANY_WORD,
        ANY_WORD,
        ANY_WORD,
        ANY_WORD,
        ANY_WORD,
        ANY_WORD,
        ANY_WORD,
        1,
    ]
}
