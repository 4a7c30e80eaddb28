// A case begins with a row of six decimal words:
//   0 how many node words    1 how many pool entries    2 how many words of work space
//   3 and 4 the answer that is expected, its number and its node
//   5 what is expected of the work space: 1 all zeros, 0 untouched
// Behind the row stand the node words and then the pool entries, each below 2^32.
ghost use Rattle.std.specs.Prelude.{◌≡◌};
ghost use Rattle.replay_verify.specs.Cases as cases;

use case_rows::ANY_WORD;
use list_room::{NODE_ROOM, POOL_ROOM, WORK_ROOM};

pub(crate) const ROW_WORDS: usize = 6;

// The largest word that may stand at each place of the row: where it is a size, the room that there is.
pub(crate) fn largest() -> [u64; ROW_WORDS]
    ensures { result ≡ cases.largest }
{
    [
        NODE_ROOM as u64,
        POOL_ROOM as u64,
        WORK_ROOM as u64,
        ANY_WORD,
        ANY_WORD,
        1,
    ]
}

#[derive(Clone, Copy)]
pub(crate) struct Expected {
    pub(crate) number: u64,
    pub(crate) node: u64,
    pub(crate) cleared: bool,
}

pub(crate) fn expected_of(row: &[u64; ROW_WORDS]) -> Expected {
    Expected {
        number: row[3],
        node: row[4],
        cleared: row[5] == 1,
    }
}
