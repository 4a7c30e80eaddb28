// A case begins with a row of eleven decimal words:
//   0 how many node words    1 how many pool entries    2 how many assignment bytes
//   3 how many words of work space    4 how many words of output
//   5 and 6 the refusal that is expected, its number and its node
//   7, 8 and 9 the root's answer that is expected: its state, width and value
//   10 what is expected of the work space: 1 all zeros, 0 untouched
// Behind the row stand the node words and the pool entries, each below 2^32, and the bytes; and behind those, where the
// number is 0, the pairs that are expected, two words a node.
ghost use Rattle.std.specs.Prelude.{◌≡◌};
ghost use Rattle.replay_evaluate.specs.Cases as cases;

use super::room::{BYTE_ROOM, OUT_ROOM};
use answer_words::Words;
use case_rows::ANY_WORD;
use list_room::{NODE_ROOM, POOL_ROOM, WORK_ROOM};
use meaning::limits::WORDS_PER_NODE;
use meaning::numbers::DONE;

pub(crate) const ROW_WORDS: usize = 11;

// `pairs` is how many words of output are expected to be written, and stand in the text.
#[derive(Clone, Copy)]
pub(crate) struct Expected {
    pub(crate) number: u64,
    pub(crate) node: u64,
    pub(crate) root: Words,
    pub(crate) cleared: bool,
    pub(crate) pairs: usize,
}

// The largest word that may stand at each place of the row: where it is a size, the room that there is.
pub(crate) fn largest() -> [u64; ROW_WORDS]
    ensures { result ≡ cases.largest }
{
    [
        NODE_ROOM as u64,
        POOL_ROOM as u64,
        BYTE_ROOM as u64,
        WORK_ROOM as u64,
        OUT_ROOM as u64,
        ANY_WORD,
        ANY_WORD,
        ANY_WORD,
        ANY_WORD,
        ANY_WORD,
        1,
    ]
}

pub(crate) fn expected_of(row: &[u64; ROW_WORDS]) -> Expected {
    Expected {
        number: row[5],
        node: row[6],
        root: Words {
            state: row[7],
            width: row[8],
            value: row[9],
        },
        cleared: row[10] == 1,
        pairs: pair_words(row[0] as usize, row[5]),
    }
}

// "it changes nothing lent but work space": a refusal writes no pair. The number is a word of the recorded case.
fn pair_words(words: usize, number: u64) -> usize {
    if number != DONE as u64 {
        return 0;
    }
    words / WORDS_PER_NODE * 2
}
