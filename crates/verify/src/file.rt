// The list in the file that the argument names, verified. What is wrong with a file is written to standard error, so that
// standard output has the verifier's line alone.
ghost use Rattle.list_room.specs.Written.{Taken};

use super::list;
use list_files::list_of_argument;
use list_room::written::{node_room, pool_room};
use std::io;

pub(crate) fn verify_argument(rt: &HostRuntime) -> io::Result<()> {
    let mut nodes = node_room();
    let mut pool = pool_room();
    verify_file(rt, &mut nodes, &mut pool)
}

// Reads into what is lent, which is no more than the program has room for.
fn verify_file(rt: &HostRuntime, nodes: &mut [u32], pool: &mut [u32]) -> io::Result<()>
    requires { Taken nodes.old pool.old }
{
    let Some(found) = list_of_argument(rt, 1, nodes, pool) else {
        return Ok(());
    };
    list::verify(
        &mut rt.stdout(),
        &nodes[..found.words],
        &pool[..found.entries],
    )
}
