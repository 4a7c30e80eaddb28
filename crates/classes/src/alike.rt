// Nodes of the first list that are like a given node: by their words, and by the classes of their children, which are
// written before.
ghost use Rattle.std.specs.Prelude.{◌≡◌, ◌<◌};
ghost use Rattle.meaning.specs.Rules.Trees.{node_count, tree_of};
ghost use Rattle.meaning.specs.Rules.Reach.{mark_of};
ghost use Rattle.meaning.specs.Rules.Search.{lowest};
ghost use Rattle.classes.specs.Classes.{has_tree};
ghost use Rattle.classes.specs.Ready.{Filled};
ghost use Rattle.classes.specs.Alike.{Rows, same_classes};

use columns::{CLASS, MARK, get};
use lists::children::children_of;
use nodes::{datum_of, kind_word, wide};

// Inner: the lowest of the first `limit` nodes of the first list that has the tree of node j, which is reached; `limit`
// where none has it.
pub(crate) fn lowest_alike(
    first_nodes: &[u32],
    first_pool: &[u32],
    limit: usize,
    nodes: &[u32],
    pool: &[u32],
    base: usize,
    j: usize,
    work: &[u64],
) -> usize
    requires filled { Filled first_nodes.now first_pool.now limit nodes.now pool.now base j work.now }
    requires j_nonzero { 0 < mark_of nodes.now pool.now j }
    ensures { result ≡ lowest (has_tree first_nodes.now first_pool.now (tree_of nodes.now pool.now j)) limit }
{
    for i in 0..limit {
        if alike(first_nodes, first_pool, i, nodes, pool, base, j, work) {
            return i;
        }
    }
    limit
}

// Is node i of the first list reached, and of the same tree as node j? The words are asked first: most nodes differ in
// them. The kind word and not the kind, which the four registers share.
fn alike(
    first_nodes: &[u32],
    first_pool: &[u32],
    i: usize,
    nodes: &[u32],
    pool: &[u32],
    base: usize,
    j: usize,
    work: &[u64],
) -> bool
    requires filled { Filled first_nodes.now first_pool.now i nodes.now pool.now base j work.now }
    requires i_bound { i < node_count first_nodes.now }
    requires j_nonzero { 0 < mark_of nodes.now pool.now j }
    ensures { result ≡ has_tree first_nodes.now first_pool.now (tree_of nodes.now pool.now j) i }
{
    if kind_word(first_nodes, i) != kind_word(nodes, j) {
        return false;
    }
    if datum_of(first_nodes, i) != datum_of(nodes, j) {
        return false;
    }
    if get(work, MARK, i) == 0 {
        return false;
    }
    let children = children_of(first_nodes, first_pool, i);
    let others = children_of(nodes, pool, j);
    same_classes(children, others, base, work)
}

// As many children, and class by class the same.
fn same_classes(children: &[u32], others: &[u32], base: usize, work: &[u64]) -> bool
    requires rows { Rows work.now 0 children.now }
    requires rows_2 { Rows work.now base others.now }
    ensures { result ≡ same_classes work.now base children.now others.now }
{
    if children.len() != others.len() {
        return false;
    }
    for at in 0..children.len() {
        let class = get(work, CLASS, wide(children[at]));
        if class != get(work, CLASS, base + wide(others[at])) {
            return false;
        }
    }
    true
}
