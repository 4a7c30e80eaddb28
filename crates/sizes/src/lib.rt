// Numbers 1, 2 and 10: the sizes of what is lent (document 01, "Numbers a call answers with"). The plain meaning is
// that of meaning's Rules/Layout. A call that is brought one list asks `lent`; one that is brought two asks
// `lent_both`.
#![tactic(auto)]

ghost use Rattle.std.specs.Prelude.{◌≡◌, ◌≤◌, length};
ghost use Rattle.meaning.specs.Rules.Limits.{most_nodes, most_pool};
ghost use Rattle.meaning.specs.Rules.Trees.{node_count};
ghost use Rattle.meaning.specs.Rules.Refusals.{answered, ◌then◌};
ghost use Rattle.meaning.specs.Rules.Layout.{within_limits, work_for};
ghost use Rattle.meaning.specs.Rules.Layout as rule;
ghost use Rattle.sizes.specs.Lent.{lent_both_row};

use meaning::Refusal;
use meaning::limits::{MOST_NODES, MOST_POOL, WORDS_PER_NODE, WORK_PER_NODE, WORK_PER_POOL};
use meaning::numbers::{LITTLE_WORK, NOT_ALIGNED, OVER_LIMIT};
use nodes::node_count;
use refusals::require;

// 1: "node words are not a multiple of three"; 2: "a list exceeds its limit". Any words may be brought.
#[tactic(auto, unfolding(meaning::specs::Rules::Layout::sizes))]
pub fn sizes(nodes: &[u32], pool: &[u32]) -> Result<(), Refusal>
    ensures { result ≡ answered (rule.sizes nodes.now pool.now) }
{
    require(nodes.len() % WORDS_PER_NODE == 0, NOT_ALIGNED)?;
    require(within_limits(nodes, pool), OVER_LIMIT)
}

// Inner: "16 u64 words per node plus 2 per pool entry", of a list past number 2; so the sum does not wrap.
pub fn work_for(nodes: &[u32], pool: &[u32]) -> usize
    requires nodes_bound { node_count nodes.now ≤ most_nodes }
    requires pool_len_bound { length pool.now ≤ most_pool }
    ensures { result ≡ work_for nodes.now pool.now }
{
    WORK_PER_NODE * node_count(nodes) + WORK_PER_POOL * pool.len()
}

// Numbers 1, 2 and 10, in that order, of a call that is brought one list and `work` words of work space.
#[tactic(auto, using(crate::specs::Within::nodes_within, crate::specs::Within::pool_within))]
pub fn lent(nodes: &[u32], pool: &[u32], work: usize) -> Result<(), Refusal>
    ensures { result ≡ answered (rule.sizes nodes.now pool.now then rule.room (work_for nodes.now pool.now) work) }
{
    sizes(nodes, pool)?;
    room(work_for(nodes, pool), work)
}

// Numbers 1 and 2 "for each list, first list first", then 10, of a call that is brought two lists and `work` words of
// work space.
#[tactic(auto, using(crate::specs::Within::nodes_within, crate::specs::Within::pool_within))]
pub fn lent_both(
    nodes: &[u32],
    pool: &[u32],
    second_nodes: &[u32],
    second_pool: &[u32],
    work: usize,
) -> Result<(), Refusal>
    ensures { result ≡ answered (lent_both_row nodes.now pool.now second_nodes.now second_pool.now work) }
{
    sizes(nodes, pool).and(sizes(second_nodes, second_pool))?;
    room(
        work_for(nodes, pool) + work_for(second_nodes, second_pool),
        work,
    )
}

// 10: of `lent` words of work space, `asked` are needed, "summed over the lists brought".
pub fn room(asked: usize, lent: usize) -> Result<(), Refusal>
    ensures { result ≡ answered (rule.room asked lent) }
{
    require(asked <= lent, LITTLE_WORK)
}

// "At most 4,096 nodes and 16,384 pool entries"
fn within_limits(nodes: &[u32], pool: &[u32]) -> bool
    ensures { result ≡ within_limits nodes.now pool.now }
{
    node_count(nodes) <= MOST_NODES && pool.len() <= MOST_POOL
}
