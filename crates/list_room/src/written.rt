// Room for a list that a person writes down: what the customer asks of every program (request 5). The limits of document
// 01 are higher, and so is what they would ask of the stack.
ghost use Rattle.std.specs.Prelude.{◌≡◌};
ghost use Rattle.list_room.specs.Room.{zeros};
ghost use Rattle.list_room.specs.Written as written;

use super::room;
use meaning::limits::{WORDS_PER_NODE, WORK_PER_NODE, WORK_PER_POOL};

const NODES_TAKEN: usize = 256;

pub const NODE_ROOM: usize = WORDS_PER_NODE * NODES_TAKEN;

pub const POOL_ROOM: usize = 1024;

// "16 u64 words per node plus 2 per pool entry", so room for what number 10 asks of any list taken
pub const WORK_ROOM: usize = WORK_PER_NODE * NODES_TAKEN + WORK_PER_POOL * POOL_ROOM;

// "summed over the lists brought"
pub const PAIR_WORK_ROOM: usize = 2 * WORK_ROOM;

pub fn node_room() -> [u32; NODE_ROOM]
    ensures { result ≡ zeros written.node_room }
{
    room::<_, NODE_ROOM>(0)
}

pub fn pool_room() -> [u32; POOL_ROOM]
    ensures { result ≡ zeros written.pool_room }
{
    room::<_, POOL_ROOM>(0)
}

pub fn work_room() -> [u64; WORK_ROOM]
    ensures { result ≡ zeros written.work_room }
{
    room::<_, WORK_ROOM>(0)
}

pub fn pair_work_room() -> [u64; PAIR_WORK_ROOM]
    ensures { result ≡ zeros written.pair_work_room }
{
    room::<_, PAIR_WORK_ROOM>(0)
}
