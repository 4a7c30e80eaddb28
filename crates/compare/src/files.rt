// Two lists from the files that the arguments name. What is wrong with a file is written to standard error, so that
// standard output has the comparer's answer alone.
ghost use Rattle.list_room.specs.Written.{Taken};

use super::two_lists;
use list_files::list_of_argument;
use list_room::written::{node_room, pool_room};
use std::io;

pub(crate) fn compare_arguments(rt: &HostRuntime) -> io::Result<()> {
    let mut nodes = node_room();
    let mut pool = pool_room();
    let mut second_nodes = node_room();
    let mut second_pool = pool_room();
    compare_files(
        rt,
        &mut nodes,
        &mut pool,
        &mut second_nodes,
        &mut second_pool,
    )
}

// Both files are read, so that a user is told of both.
fn compare_files(
    rt: &HostRuntime,
    nodes: &mut [u32],
    pool: &mut [u32],
    second_nodes: &mut [u32],
    second_pool: &mut [u32],
) -> io::Result<()>
    requires taken { Taken nodes.old pool.old }
    requires taken_2 { Taken second_nodes.old second_pool.old }
{
    let first = list_of_argument(rt, 1, nodes, pool);
    let second = list_of_argument(rt, 2, second_nodes, second_pool);
    let Some(first) = first else {
        return Ok(());
    };
    let Some(second) = second else {
        return Ok(());
    };
    two_lists::compare(
        rt,
        &nodes[..first.words],
        &pool[..first.entries],
        &second_nodes[..second.words],
        &second_pool[..second.entries],
    )
}
