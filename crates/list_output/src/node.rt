// The words of one node of the list (document 01, "The node list": "nodes, three words each (kind, first, count)").
ghost use Rattle.std.specs.Prelude.{◌≡◌, ◌+◌, ◌*◌, ◌/◌, ◌≤◌, length};
ghost use Rattle.std.proofs.lemmas.List.Edits.{sets};
ghost use Rattle.meaning.specs.Rules.Limits.{words_per_node, work_per_node, most_pool, widest_bus};
ghost use Rattle.meaning.specs.Rules.Kinds.{cycle_word};
ghost use Rattle.meaning.specs.Rules.Trees.{node_of};
ghost use Rattle.columns.specs.Columns.{cell, kind_column, count_column};
ghost use Rattle.list_output.specs.Words.{entry_node};

use super::entry::{child_count, entry_kind};
use form_rows::datum_in;
use listed::PAIR;
use meaning::kinds::VARIABLE;
use meaning::limits::WORDS_PER_NODE;
use nodes::HALF;

// the words that every node has: kind, first and count
const NAMED: usize = 3;

// Node k is the entry's tree: kinds 4 to 16 have the part of the pool that starts at `at`, any other its datum ("low
// half in first, high half in count").
pub(crate) fn write_node(work: &[u64], entry: usize, at: usize, k: usize, out: &mut [u32])
    requires work_per_node_in_bounds { work_per_node * (entry / 2) + work_per_node ≤ length work.now }
    requires bound { cell work.now kind_column (entry / 2) ≤ cycle_word }
    requires bound_2 { cell work.now count_column (entry / 2) ≤ widest_bus }
    requires at_le_most_pool { at ≤ most_pool }
    requires words_per_node_in_bounds { k * words_per_node + words_per_node ≤ length out.old }
    ensures { out.new ≡ sets out.old (k * words_per_node) (entry_node work.now at entry) }
{
    let kind = entry_kind(work, entry);
    if kind > VARIABLE {
        put_node(out, k, kind, at as u32, child_count(work, entry) as u32);
    } else {
        let datum = datum_in(work, entry / PAIR);
        put_node(out, k, kind, (datum % HALF) as u32, (datum / HALF) as u32);
    }
}

// Stores the words of node k, zeros where a node has more than those three. No other function says where they go.
fn put_node(out: &mut [u32], k: usize, kind: u32, first: u32, count: u32)
    requires { k * words_per_node + words_per_node ≤ length out.old }
    ensures { out.new ≡ sets out.old (k * words_per_node) (node_of kind first count) }
{
    let at = k * WORDS_PER_NODE;
    out[at] = kind;
    out[at + 1] = first;
    out[at + 2] = count;
    out[at + NAMED..at + WORDS_PER_NODE].fill(0);
}
