// Which of two lists a refusal is of.
ghost use Rattle.std.specs.Prelude.{◌≤◌, length};
ghost use Rattle.list_room.specs.Written.{pair_work_room, Taken};

use meaning::numbers::{MANY_INPUTS, NOT_ALIGNED, OVER_LIMIT};
use sizes::sizes;
use std::io;
use std::io::Write;
use verifier::sound;

pub(crate) fn write_list(
    rt: &HostRuntime,
    number: u32,
    nodes: &[u32],
    pool: &[u32],
    work: &mut [u64],
) -> io::Result<()>
    requires taken { Taken nodes.now pool.now }
    requires pair_work_room_in_bounds { pair_work_room ≤ length work.old }
{
    if is_first(number, nodes, pool, work) {
        rt.stdout().write_all(b"first list: ")
    } else {
        rt.stdout().write_all(b"second list: ")
    }
}

// "1 and 2 for each list, first list first", "then list by list 3, 4, 5 .., 6, 7, 8", so the first list's if it is
// refused by these itself; "over 30 variables below the first root". There is work space for any two lists taken.
fn is_first(number: u32, nodes: &[u32], pool: &[u32], work: &mut [u64]) -> bool
    requires taken { Taken nodes.now pool.now }
    requires pair_work_room_in_bounds { pair_work_room ≤ length work.old }
{
    match number {
        NOT_ALIGNED | OVER_LIMIT => sizes(nodes, pool).is_err(),
        MANY_INPUTS => true,
        _ => sound(nodes, pool, 0, work).is_err(),
    }
}
