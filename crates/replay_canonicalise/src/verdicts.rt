// What a comparison says of the given list and of the one that the canonicaliser wrote: it tries every assignment, so
// Equiv says that both have the same value under each.
ghost use Rattle.std.specs.Prelude.{◌≡◌, ◌≤◌, length};
ghost use Rattle.meaning.specs.Rules.Calls.{compare};
ghost use Rattle.replay_canonicalise.specs.Verdicts.{said, Stands};

use comparer::func_equiv;
use comparison_words::verdict_number;
use list_room::pair_work_room;
use meaning::{Canonical, Refusal};

// What a case has for a verdict where none is asked
const NOT_ASKED: u64 = 3;

// A comparison that refuses has no verdict, and this is none that a case expects.
const REFUSED: u64 = 4;

// The canonical list stands at the start of what was lent for it; a call that refuses wrote none.
pub(crate) fn verdict_of(
    expected: u64,
    nodes: &[u32],
    pool: &[u32],
    canonical: Result<Canonical, Refusal>,
    out_nodes: &[u32],
    out_pool: &[u32],
) -> u64
    requires { Stands canonical out_nodes.now out_pool.now }
{
    match canonical {
        Ok(list) => verdict_on(
            expected,
            nodes,
            pool,
            &out_nodes[..list.nodes as usize],
            &out_pool[..list.pool as usize],
        ),
        Err(_) => verdict_on(expected, nodes, pool, &[], &[]),
    }
}

fn verdict_on(
    expected: u64,
    nodes: &[u32],
    pool: &[u32],
    second_nodes: &[u32],
    second_pool: &[u32],
) -> u64 {
    if expected == NOT_ASKED {
        return NOT_ASKED;
    }
    let mut work = pair_work_room();
    verdict_in(nodes, pool, second_nodes, second_pool, &mut work)
}

#[tactic(auto, using(crate::specs::Verdicts::verdict_said, crate::specs::Verdicts::refusal_said))]
fn verdict_in(
    nodes: &[u32],
    pool: &[u32],
    second_nodes: &[u32],
    second_pool: &[u32],
    work: &mut [u64],
) -> u64
    ensures { result ≡ said (compare nodes.now pool.now second_nodes.now second_pool.now work.old).answer }
{
    match func_equiv(nodes, pool, second_nodes, second_pool, work) {
        Ok(comparison) => verdict_number(comparison.verdict),
        Err(_) => REFUSED,
    }
}
