// The variables below a root, for a user who reads an assignment or waits for an answer.
ghost use Rattle.std.specs.Prelude.{◌≡◌, ◌≤◌, length, take};
ghost use Rattle.meaning.specs.Rules.Limits.{variable_count};
ghost use Rattle.list_room.specs.Written.{work_room, Taken};
ghost use Rattle.list_texts.specs.Counted.{Starts};
ghost use Rattle.long_searches.specs.Shown.{variables_below};

use super::is_accepted;
use inputs::put_input_set;

// The variables, lowest first, at the start of what is lent; answers how many they are, and not the slice: the programs
// hold the room beside other parts of theirs. A list that is refused has none, and is not searched. Inner, as
// `is_accepted` is.
pub fn variables_below(
    nodes: &[u32],
    pool: &[u32],
    work: &mut [u64],
    variables: &mut [usize],
) -> usize
    requires taken { Taken nodes.now pool.now }
    requires work_room_in_bounds { work_room ≤ length work.old }
    requires variables_len { length variables.old ≡ variable_count }
    ensures starts { Starts result variables.new }
    ensures variables_after { take result variables.new ≡ variables_below nodes.now pool.now }
{
    if is_accepted(nodes, pool, work) {
        put_input_set(nodes, pool, 0, work, variables)
    } else {
        0
    }
}
