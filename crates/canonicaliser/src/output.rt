// Number 19 and the output (document 01: "an output slice shorter than the answer, or a list answered above the
// limits"; "always last 19"; "output past the answer is unchanged"). Nothing is written before all of it is known to
// fit.
ghost use Rattle.std.specs.Prelude.{◌≡◌, ◌*◌, ◌≤◌, length};
ghost use Rattle.meaning.specs.Rules.Limits.{most_nodes};
ghost use Rattle.meaning.specs.Rules.Trees.{node_count};
ghost use Rattle.meaning.specs.Rules.Calls.{canonical_result};
ghost use Rattle.listed.specs.Listing.{Listing};
ghost use Rattle.canonicaliser.specs.Outcome.{fit_words, list_answer, list_nodes, list_pool};

use list_output::{pool_length, write_nodes, write_pool};
use meaning::limits::{MOST_NODES, MOST_POOL, WORDS_PER_NODE};
use meaning::numbers::SHORT_OUTPUT;
use meaning::{Canonical, Refusal};
use refusals::require;

// Do so many nodes and pool entries keep within the limits and within slices of that length?
fn fits(count: usize, entries: usize, node_room: usize, pool_room: usize) -> bool
    requires { count ≤ 2 * most_nodes }
    ensures { result ≡ fit_words count entries node_room pool_room }
{
    if count * WORDS_PER_NODE > node_room {
        return false;
    }
    if entries > pool_room {
        return false;
    }
    if count > MOST_NODES {
        return false;
    }
    entries <= MOST_POOL
}

// The list that stands in the work space, written where it fits.
pub(crate) fn put_list(
    nodes: &[u32],
    pool: &[u32],
    work: &[u64],
    count: usize,
    out_nodes: &mut [u32],
    out_pool: &mut [u32],
) -> Result<Canonical, Refusal>
    requires listing { Listing nodes.now pool.now work.now count }
    requires nodes_bound { node_count nodes.now ≤ most_nodes }
    ensures value { result ≡ canonical_result (list_answer nodes.now pool.now (length out_nodes.old) (length out_pool.old)) }
    ensures out_nodes_after { out_nodes.new ≡ list_nodes nodes.now pool.now out_nodes.old (length out_pool.old) }
    ensures out_pool_after { out_pool.new ≡ list_pool nodes.now pool.now (length out_nodes.old) out_pool.old }
{
    let entries = pool_length(work, count);
    let room = fits(count, entries, out_nodes.len(), out_pool.len());
    require(room, SHORT_OUTPUT)?;
    write_nodes(work, count, out_nodes);
    write_pool(nodes, pool, work, count, out_pool);
    Ok(Canonical {
        nodes: (count * WORDS_PER_NODE) as u32,
        pool: entries as u32,
    })
}
