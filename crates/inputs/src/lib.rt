// The variables below a root, and an assignment of them by its number (document 01, "Comparison and separation": "bit j
// of assignment i drives the j-th smallest variable below the first root"; 000, `get_input_set`). The plain meaning is
// meaning's Rules/Assignments, `inputs` and `drive`. A caller has a list accepted and its marks in the work space
// (rows, specs/Rows, `Prepared`), calls `get_input_set` once with room of `driving::no_variables`, and then
// `driving::drive` for each index, on bytes that `driving::undriven` gave at first. That the variables are numbers of
// such bytes is specs/Inputs, `inputs_below`; that the bytes are ready for the next index, specs/Driving,
// `still_undriven`.
#![tactic(auto)]

pub mod driving;

ghost use Rattle.std.specs.Prelude.{◌≡◌, ◌<◌, ◌≤◌, length, take};
ghost use Rattle.meaning.specs.Rules.Limits.{variable_count};
ghost use Rattle.meaning.specs.Rules.Trees.{node_count, root_of};
ghost use Rattle.meaning.specs.Rules.Assignments as assignments;
ghost use Rattle.rows.specs.Rows.{Prepared};
ghost use Rattle.inputs.specs.Inputs.{is_input};

use columns::{MARK, get};
use meaning::kinds::Kind;
use meaning::limits::VARIABLE_COUNT;
use nodes::{first_of, kind_of, node_count};

// Inner: the variables below the root, lowest number first, in the room that is lent. The pool is lent for the contract
// alone, here and below: which nodes the root reaches is in the marks.
pub fn get_input_set<'a>(
    nodes: &[u32],
    pool: &[u32],
    base: usize,
    work: &[u64],
    room: &'a mut [usize],
) -> &'a [usize]
    requires prepared { Prepared nodes.now pool.now base work.now }
    requires room_len { length room.old ≡ variable_count }
    ensures upper_bound { length result.now ≤ variable_count }
    ensures value { result.now ≡ assignments.inputs (root_of nodes.now pool.now) }
{
    let count = put_input_set(nodes, pool, base, work, room);
    &room[..count]
}

// Inner: the same at the start of `variables`, for a caller who reads them there later; answers how many they are.
pub fn put_input_set(
    nodes: &[u32],
    pool: &[u32],
    base: usize,
    work: &[u64],
    variables: &mut [usize],
) -> usize
    requires prepared { Prepared nodes.now pool.now base work.now }
    requires variables_len { length variables.old ≡ variable_count }
    ensures upper_bound { result ≤ variable_count }
    ensures variables_after { take result variables.new ≡ assignments.inputs (root_of nodes.now pool.now) }
{
    let mut count: usize = 0;
    for v in 0..VARIABLE_COUNT {
        if occurs(nodes, pool, base, work, v) {
            variables[count] = v;
            count += 1;
        }
    }
    count
}

// Is that variable below the root ("Only nodes reachable from the root, itself included, count; "below" reads so too")?
// One search over the nodes.
fn occurs(nodes: &[u32], pool: &[u32], base: usize, work: &[u64], v: usize) -> bool
    requires { Prepared nodes.now pool.now base work.now }
    ensures { result ≡ assignments.occurs v (root_of nodes.now pool.now) }
{
    (0..node_count(nodes)).any(|i| is_input(nodes, pool, base, work, v, i))
}

// Is node i that variable ("Var: first is its number"), and reached? Few nodes are, so the mark is read last.
fn is_input(nodes: &[u32], pool: &[u32], base: usize, work: &[u64], v: usize, i: usize) -> bool
    requires prepared { Prepared nodes.now pool.now base work.now }
    requires i_bound { i < node_count nodes.now }
    ensures { result ≡ is_input nodes.now pool.now v i }
{
    kind_of(nodes, i) == Kind::Var && first_of(nodes, i) == v && get(work, MARK, base + i) > 0
}
