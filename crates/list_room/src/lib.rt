// Room for a list that a program reads. Past the limits of document 01 ("At most 4,096 nodes and 16,384 pool
// entries"), so that a list over them can be brought; and room for the work space that the largest such list asks
// ("16 u64 words per node plus 2 per pool entry"). What a person writes down is shorter, and has room in `written`.
#![tactic(auto)]

pub mod written;

ghost use Rattle.std.specs.Prelude.{◌≡◌};
ghost use Rattle.list_room.specs.Room.{copies, zeros};

pub const NODE_ROOM: usize = 12300;

pub const POOL_ROOM: usize = 16400;

pub const WORK_ROOM: usize = 98400;

// Room for the work space that two such lists ask together, "summed over the lists brought"
pub const PAIR_WORK_ROOM: usize = 200000;

// Room for the text that a replay reads its cases from, two megabytes
pub const TEXT_ROOM: usize = 2097152;

// Room for N elements, each the one given: what a program lends a call is new. Each room is a call, so that a proof has an
// array of that length before it and not so many zeros.
#[tactic(auto, unfolding(crate::specs::Room::copies))]
pub fn room<T: Copy, const N: usize>(element: T) -> [T; N]
    ensures { result ≡ copies N element }
{
    [element; N]
}

pub fn node_room() -> [u32; NODE_ROOM]
    ensures { result ≡ zeros 12300 }
{
    room::<_, NODE_ROOM>(0)
}

pub fn pool_room() -> [u32; POOL_ROOM]
    ensures { result ≡ zeros 16400 }
{
    room::<_, POOL_ROOM>(0)
}

pub fn work_room() -> [u64; WORK_ROOM]
    ensures { result ≡ zeros 98400 }
{
    room::<_, WORK_ROOM>(0)
}

pub fn pair_work_room() -> [u64; PAIR_WORK_ROOM]
    ensures { result ≡ zeros 200000 }
{
    room::<_, PAIR_WORK_ROOM>(0)
}

pub fn text_room() -> [u8; TEXT_ROOM]
    ensures { result ≡ zeros 2097152 }
{
    room::<_, TEXT_ROOM>(0)
}
