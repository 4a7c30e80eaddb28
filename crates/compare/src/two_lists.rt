// Two lists through the comparer, and its answer in plain words.
ghost use Rattle.std.specs.Prelude.{◌≡◌, ◌≤◌, length};
ghost use Rattle.meaning.specs.Rules.Limits.{variable_count};
ghost use Rattle.list_room.specs.Written.{pair_work_room, Taken};

use super::refused::write_list;
use comparer::func_equiv;
use comparison_text::write_comparison;
use inputs::driving::no_variables;
use list_room::written::pair_work_room;
use long_searches::variables::variables_below;
use long_searches::{is_accepted, write_warning};
use refusal_text::write_refusal;
use std::io;

pub(crate) fn compare(
    rt: &HostRuntime,
    nodes: &[u32],
    pool: &[u32],
    second_nodes: &[u32],
    second_pool: &[u32],
) -> io::Result<()>
    requires taken { Taken nodes.now pool.now }
    requires taken_2 { Taken second_nodes.now second_pool.now }
{
    let mut work = pair_work_room();
    let mut variables = no_variables();
    compare_in(
        rt,
        nodes,
        pool,
        second_nodes,
        second_pool,
        &mut work,
        &mut variables,
    )
}

// The variables are asked for first, since the comparison may be long and a user is told before it. A warning that can't
// be written keeps nobody from the answer.
fn compare_in(
    rt: &HostRuntime,
    nodes: &[u32],
    pool: &[u32],
    second_nodes: &[u32],
    second_pool: &[u32],
    work: &mut [u64],
    variables: &mut [usize],
) -> io::Result<()>
    requires taken { Taken nodes.now pool.now }
    requires taken_2 { Taken second_nodes.now second_pool.now }
    requires pair_work_room_in_bounds { pair_work_room ≤ length work.old }
    requires variables_len { length variables.old ≡ variable_count }
{
    let count = variables_below(nodes, pool, work, variables);
    if is_accepted(second_nodes, second_pool, work) {
        let _ = write_warning(&mut rt.stderr(), count, b" variables below the first root");
    }
    match func_equiv(nodes, pool, second_nodes, second_pool, work) {
        Ok(comparison) => write_comparison(&mut rt.stdout(), comparison, &variables[..count]),
        Err(refusal) => {
            write_list(rt, refusal.number, nodes, pool, work)?;
            write_refusal(&mut rt.stdout(), refusal)
        }
    }
}
