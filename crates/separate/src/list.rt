// One list through the separator, and its answer in plain words.
ghost use Rattle.std.specs.Prelude.{◌≡◌, ◌≤◌, length};
ghost use Rattle.meaning.specs.Rules.Limits.{variable_count};
ghost use Rattle.list_room.specs.Written.{work_room, Taken};

use bounds::bounded;
use inputs::driving::no_variables;
use list_room::written::work_room;
use long_searches::variables::variables_below;
use long_searches::write_warning;
use refusal_text::write_refusal;
use separation_text::write_separation;
use separator::separate;
use std::io;

pub(crate) fn separate_list(
    rt: &HostRuntime,
    nodes: &[u32],
    pool: &[u32],
    n: u32,
    marks: u32,
) -> io::Result<()>
    requires { Taken nodes.now pool.now }
{
    let mut work = work_room();
    let mut variables = no_variables();
    separate_in(rt, nodes, pool, n, marks, &mut work, &mut variables)
}

// The assignments to try may be many, and a user is told before, unless number 11 refuses. Variables that the root does
// not reach are not tried, so they do not count. A warning that can't be written keeps nobody from the answer.
fn separate_in(
    rt: &HostRuntime,
    nodes: &[u32],
    pool: &[u32],
    n: u32,
    marks: u32,
    work: &mut [u64],
    variables: &mut [usize],
) -> io::Result<()>
    requires taken { Taken nodes.now pool.now }
    requires work_room_in_bounds { work_room ≤ length work.old }
    requires variables_len { length variables.old ≡ variable_count }
{
    let count = variables_below(nodes, pool, work, variables);
    if bounded(nodes, n, marks).is_ok() {
        let _ = write_warning(&mut rt.stderr(), count, b" variables below the root");
    }
    match separate(nodes, pool, n, marks, work) {
        Ok(separation) => write_separation(&mut rt.stdout(), separation, n, marks),
        Err(refusal) => write_refusal(&mut rt.stdout(), refusal),
    }
}
