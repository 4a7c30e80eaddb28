// The two lists of a case, as they stand behind its row: the second behind the first.
ghost use Rattle.std.specs.Prelude.{◌≤◌, length, IfOk};
ghost use Rattle.replay_compare.specs.Lists.{Reaches};

use decimals::Bad;
use list_words::next_list;

// The lent places are scratch where there is a fault.
pub(crate) fn next_lists(
    text: &[u8],
    at: usize,
    nodes: &mut [u32],
    pool: &mut [u32],
    second_nodes: &mut [u32],
    second_pool: &mut [u32],
) -> Result<usize, Bad>
    requires { at ≤ length text.now }
    ensures { IfOk result (Reaches (length text.now) at) }
{
    let next = next_list(text, at, nodes, pool)?;
    next_list(text, next, second_nodes, second_pool)
}
