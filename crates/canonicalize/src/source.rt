// The list in the file that the argument names, or on standard input. Standard output has the canonical list's words
// alone, so that they can be handed to another program; the term, and what is wrong with a text, are written to
// standard error.
ghost use Rattle.list_room.specs.Written.{Taken};

use super::list;
use list_files::list_of_source;
use list_room::written::{node_room, pool_room};
use std::io;

pub(crate) fn canonicalize_source(rt: &HostRuntime) -> io::Result<()> {
    let mut nodes = node_room();
    let mut pool = pool_room();
    canonicalize_found(rt, &mut nodes, &mut pool)
}

// Reads into what is lent, which is no more than the program has room for.
fn canonicalize_found(rt: &HostRuntime, nodes: &mut [u32], pool: &mut [u32]) -> io::Result<()>
    requires { Taken nodes.old pool.old }
{
    let Some(found) = list_of_source(rt, 1, nodes, pool) else {
        return Ok(());
    };
    list::canonicalize(
        &mut rt.stdout(),
        &mut rt.stderr(),
        &nodes[..found.words],
        &pool[..found.entries],
    )
}
