// Tree equality without walking paths (000, `deep_equals`; document 01, "Comparison and separation": "Equal trees").
// Every node gets a class, the lowest node of the first list that has the same tree, so that two nodes have one class
// exactly when their trees are the same. The plain meaning is specs/Classes, `class_of` and `class_at`, and of the answer
// meaning's Rules/Trees, `same`; the law that joins the two is `class_same`. A caller has two lists past number 8 with
// their marks in the work space (specs/Ready, `Listed`), the second's rows behind the first's, and calls `deep_equals`;
// what is written and what stays is specs/Both.
// Every pair of nodes is looked at once at most, and of a pair as many children as both have (of a node that counts in
// an accepted list 64 at most, the widest Bus); no path is walked.
#![tactic(auto)]

mod alike;

ghost use Rattle.std.specs.Prelude.{◌≡◌, ◌<◌};
ghost use Rattle.meaning.specs.Rules.Trees.{same, node_count, root_of};
ghost use Rattle.columns.specs.Columns.{class_column, with_column};
ghost use Rattle.classes.specs.Classes.{class_at};
ghost use Rattle.classes.specs.Ready.{Listed, Ready, Turn};
ghost use Rattle.classes.specs.Both.{both_classes};

use alike::lowest_alike;
use columns::{CLASS, MARK, get, put};
use nodes::node_count;

// Inner: are the two roots the same tree? Both lists' classes are written for it, and stay.
pub fn deep_equals(
    first_nodes: &[u32],
    first_pool: &[u32],
    nodes: &[u32],
    pool: &[u32],
    work: &mut [u64],
) -> bool
    requires listed { Listed first_nodes.now first_pool.now 0 work.old }
    requires listed_2 { Listed nodes.now pool.now (node_count first_nodes.now) work.old }
    ensures value { result ≡ same (root_of first_nodes.now first_pool.now) (root_of nodes.now pool.now) }
    ensures work_after { work.new ≡ both_classes first_nodes.now first_pool.now nodes.now pool.now work.old }
{
    let base = node_count(first_nodes);
    write_classes(first_nodes, first_pool, first_nodes, first_pool, 0, work);
    write_classes(first_nodes, first_pool, nodes, pool, base, work);
    let last = node_count(nodes) - 1;
    get(work, CLASS, base - 1) == get(work, CLASS, base + last)
}

// Inner: column CLASS of every node of a list whose first row is `base`. Either it is the first list itself, and base
// is 0, or the first list's classes are written and base is behind its rows.
pub fn write_classes(
    first_nodes: &[u32],
    first_pool: &[u32],
    nodes: &[u32],
    pool: &[u32],
    base: usize,
    work: &mut [u64],
)
    requires { Ready first_nodes.now first_pool.now nodes.now pool.now base work.old }
    ensures { work.new ≡ with_column class_column base (node_count nodes.now) (class_at first_nodes.now first_pool.now nodes.now pool.now) work.old }
{
    let n = node_count(nodes);
    for j in 0..n {
        let class = class_of_node(first_nodes, first_pool, nodes, pool, base, j, work);
        put(work, CLASS, base + j, class);
    }
}

// Node j's class, once those of the rows before its own are written; a node that no path reaches has none.
fn class_of_node(
    first_nodes: &[u32],
    first_pool: &[u32],
    nodes: &[u32],
    pool: &[u32],
    base: usize,
    j: usize,
    work: &[u64],
) -> u64
    requires { Turn first_nodes.now first_pool.now nodes.now pool.now base j work.now }
    ensures { result ≡ class_at first_nodes.now first_pool.now nodes.now pool.now j }
{
    let n = node_count(first_nodes);
    if get(work, MARK, base + j) == 0 {
        return n as u64;
    }

    // Of the first list itself only the nodes before node j are asked, so that a node like none before it is its own
    // class; of a second list all.
    let limit = (base + j).min(n);
    lowest_alike(first_nodes, first_pool, limit, nodes, pool, base, j, work) as u64
}
