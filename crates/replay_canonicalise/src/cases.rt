// A case begins with a row of eleven decimal words:
//   0 and 1 how many node words and pool entries    2 how many words of work space
//   3 and 4 how many words of output for nodes and for the pool
//   5 and 6 the refusal that is expected, its number and its node
//   7 and 8 how many node words and pool entries the canonical list has
//   9 the verdict that is expected of a comparison of the given list with the one written: 0 Equiv, 1 NotEquiv,
//   2 Inconclusive, 3 where it is not asked
//   10 what is expected of the work space: 1 all zeros, 0 untouched
// Behind the row stand the node words and the pool entries of the given list, each below 2^32; and behind those, where
// the number is 0, the node words and the pool entries of the canonical list.
ghost use Rattle.std.specs.Prelude.{◌≡◌};
ghost use Rattle.replay_canonicalise.specs.Cases as cases;

use super::judgement::{Expected, Listed};
use case_rows::ANY_WORD;
use list_room::{NODE_ROOM, POOL_ROOM, WORK_ROOM};
use meaning::numbers::DONE;

pub(crate) const ROW_WORDS: usize = 11;

// The largest word that may stand at each place of the row: where it is a size, the room that there is.
pub(crate) fn largest() -> [u64; ROW_WORDS]
    ensures { result ≡ cases.largest }
{
    [
        NODE_ROOM as u64,
        POOL_ROOM as u64,
        WORK_ROOM as u64,
        NODE_ROOM as u64,
        POOL_ROOM as u64,
        ANY_WORD,
        ANY_WORD,
        ANY_WORD,
        ANY_WORD,
        ANY_WORD,
        1,
    ]
}

pub(crate) fn expected_of(row: &[u64; ROW_WORDS]) -> Expected {
    Expected {
        number: row[5],
        node: row[6],
        words: row[7],
        entries: row[8],
        verdict: row[9],
        cleared: row[10] == 1,
        listed: listed_of(row[5], row[7] as usize, row[8] as usize),
    }
}

// "it changes nothing lent but work space": a refusal writes no list. The number is a word of the recorded case.
fn listed_of(number: u64, words: usize, entries: usize) -> Listed {
    if number != DONE as u64 {
        return Listed {
            words: 0,
            entries: 0,
        };
    }
    Listed { words, entries }
}
