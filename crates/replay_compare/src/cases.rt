// A case begins with a row of sixteen decimal words:
//   0 and 1 how many node words and pool entries of the first list    2 and 3 of the second
//   4 how many words of work space
//   5 to 15 what is expected, as `replay_results` reads it: what is found is the verdict, 0 Equiv, 1 NotEquiv,
//   2 Inconclusive; the answers are those of the first list and of the second
// Behind the row stand the node words and the pool entries of the first list, and behind those the second's, each below
// 2^32.
ghost use Rattle.std.specs.Prelude.{◌≡◌};
ghost use Rattle.replay_compare.specs.Cases as cases;

use case_rows::ANY_WORD;
use list_room::{NODE_ROOM, PAIR_WORK_ROOM, POOL_ROOM};
use replay_results::ROW_WORDS;

// The largest word that may stand at each place of the row: where it is a size, the room that there is.
pub(crate) fn largest() -> [u64; ROW_WORDS]
    ensures { result ≡ cases.largest }
{
    [
        NODE_ROOM as u64,
        POOL_ROOM as u64,
        NODE_ROOM as u64,
        POOL_ROOM as u64,
        PAIR_WORK_ROOM as u64,
        ANY_WORD,
        ANY_WORD,
        ANY_WORD,
        ANY_WORD,
        ANY_WORD,
        ANY_WORD,
        ANY_WORD,
        ANY_WORD,
        ANY_WORD,
        ANY_WORD,
        1,
    ]
}
