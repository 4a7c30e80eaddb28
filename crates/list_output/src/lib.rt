// The words of the canonical list (document 01, "Canonical list": "children before parents, left to right, pool without
// gaps"): how many entries its pool has, its nodes and its pool, from the complete list of subtrees in the work space.
// The plain meaning is meaning's Rules/Canonical, `canonical_nodes` and `canonical_pool`. A caller has subtrees listed
// (listed, specs/Listing), asks `pool_length`, and writes by `write_nodes` and `write_pool` once all is known to fit.
// What is read of the work space alone is said by its words (specs/Words); specs/Canonical joins those with the trees.
#![tactic(auto)]

mod entry;
mod node;
mod part;

ghost use Rattle.std.specs.Prelude.{◌≡◌, ◌*◌, ◌≤◌, length};
ghost use Rattle.meaning.specs.Rules.Limits.{words_per_node, most_nodes, most_pool};
ghost use Rattle.meaning.specs.Rules.Lent.{written};
ghost use Rattle.meaning.specs.Rules.Canonical.{canonical_pool};
ghost use Rattle.listed.specs.Listing.{Listing};
ghost use Rattle.list_output.specs.Words.{Rows, pool_size, row_nodes};

use entry::child_count;
use listed::listed_at;
use node::write_node;
use part::write_part;

// Inner: how many entries the pool of the list has. Here and below the entries are read by their places: they are packed
// two to a row of the work space, so there is no slice to go over.
pub fn pool_length(work: &[u64], count: usize) -> usize
    requires rows { Rows work.now count }
    requires count_bound { count ≤ 2 * most_nodes }
    ensures { result ≡ pool_size work.now count }
{
    let mut at = 0;
    for k in 0..count {
        at += child_count(work, listed_at(work, k));
    }
    at
}

// Inner: writes the nodes of the list.
pub fn write_nodes(work: &[u64], count: usize, out: &mut [u32])
    requires rows { Rows work.now count }
    requires words_per_node_in_bounds { count * words_per_node ≤ length out.old }
    requires count_bound { pool_size work.now count ≤ most_pool }
    ensures { out.new ≡ written (row_nodes work.now count) out.old }
{
    let mut at = 0;
    for k in 0..count {
        let entry = listed_at(work, k);
        write_node(work, entry, at, k, out);
        at += child_count(work, entry);
    }
}

// Inner: writes the pool of the list.
pub fn write_pool(nodes: &[u32], pool: &[u32], work: &[u64], count: usize, out: &mut [u32])
    requires listing { Listing nodes.now pool.now work.now count }
    requires count_le_most_nodes { count ≤ most_nodes }
    requires pool_in_bounds { length (canonical_pool nodes.now pool.now) ≤ length out.old }
    ensures { out.new ≡ written (canonical_pool nodes.now pool.now) out.old }
{
    let mut at = 0;
    for k in 0..count {
        let entry = listed_at(work, k);
        write_part(nodes, pool, work, entry, at, out);
        at += child_count(work, entry);
    }
}
