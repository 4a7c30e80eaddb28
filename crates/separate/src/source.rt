// The list in the file that the first argument names, or on standard input. What is wrong with a text is written to
// standard error, so that standard output has the separator's answer alone.
ghost use Rattle.list_room.specs.Written.{Taken};

use super::list;
use list_files::list_of_source;
use list_room::written::{node_room, pool_room};
use std::io;

pub(crate) fn separate_source(rt: &HostRuntime, n: u32, marks: u32) -> io::Result<()> {
    let mut nodes = node_room();
    let mut pool = pool_room();
    separate_found(rt, n, marks, &mut nodes, &mut pool)
}

// Reads into what is lent, which is no more than the program has room for.
fn separate_found(
    rt: &HostRuntime,
    n: u32,
    marks: u32,
    nodes: &mut [u32],
    pool: &mut [u32],
) -> io::Result<()>
    requires { Taken nodes.old pool.old }
{
    let Some(found) = list_of_source(rt, 1, nodes, pool) else {
        return Ok(());
    };
    list::separate_list(rt, &nodes[..found.words], &pool[..found.entries], n, marks)
}
