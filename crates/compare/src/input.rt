// Two lists from standard input, the second behind the first and nothing behind the second.
ghost use Rattle.list_room.specs.Written.{Taken};

use super::two_lists;
use list_files::{large_buffer, read_text};
use list_parts::{ends, find_list};
use list_room::written::{node_room, pool_room};
use std::io;

pub(crate) fn compare_input(rt: &HostRuntime) -> io::Result<()> {
    let mut text = large_buffer();
    let reading = read_text(
        &mut rt.stdin(),
        &mut rt.stderr(),
        b"standard input",
        &mut text,
    );
    let Some(n) = reading else {
        return Ok(());
    };
    compare_text(rt, b"standard input", &text[..n])
}

fn compare_text(rt: &HostRuntime, name: &[u8], text: &[u8]) -> io::Result<()> {
    let mut nodes = node_room();
    let mut pool = pool_room();
    let mut second_nodes = node_room();
    let mut second_pool = pool_room();
    compare_parts(
        rt,
        name,
        text,
        &mut nodes,
        &mut pool,
        &mut second_nodes,
        &mut second_pool,
    )
}

fn compare_parts(
    rt: &HostRuntime,
    name: &[u8],
    text: &[u8],
    nodes: &mut [u32],
    pool: &mut [u32],
    second_nodes: &mut [u32],
    second_pool: &mut [u32],
) -> io::Result<()>
    requires taken { Taken nodes.old pool.old }
    requires taken_2 { Taken second_nodes.old second_pool.old }
{
    let mut err = rt.stderr();
    let Some(first) = find_list(&mut err, name, text, 0, nodes, pool) else {
        return Ok(());
    };
    let Some(second) = find_list(&mut err, name, text, first.next, second_nodes, second_pool) else {
        return Ok(());
    };
    if !ends(&mut err, name, text, second.next) {
        return Ok(());
    }
    two_lists::compare(
        rt,
        &nodes[..first.words],
        &pool[..first.entries],
        &second_nodes[..second.words],
        &second_pool[..second.entries],
    )
}
