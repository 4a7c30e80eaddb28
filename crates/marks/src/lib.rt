// Which nodes count, and how many Cycle nodes are over them (document 01, "Verification": "Only nodes reachable from the
// root, itself included, count"; "the least number of Cycle nodes over it on any path from the root"). The plain meaning is
// meaning's Rules/Reach: paths (`PathTo`), and the mark of a node, `mark_of`; Claims/Reach joins the two. A caller uses
// `mark_reached`: one pass from the root down, in which each reached node hands its mark on to its children. Since children
// are numbered below their node, a node's own mark is settled before its turn comes; each node and each pool entry is
// looked at once, however often a node is shared.
#![tactic(auto)]

ghost use Rattle.std.specs.Prelude.{◌≡◌, ℕ, ◌+◌, ◌*◌, ◌^◌, ◌<◌, ◌≤◌, length, get_or};
ghost use Rattle.meaning.specs.Rules.Limits.{most_nodes, work_per_node};
ghost use Rattle.meaning.specs.Rules.Trees.{node_count};
ghost use Rattle.meaning.specs.Rules.Reach as reach;
ghost use Rattle.meaning.specs.Claims.Column.{WellLaid};
ghost use Rattle.lists.specs.Laid.{Laid};
ghost use Rattle.columns.specs.Columns.{place, cell, mark_column, with_column};
ghost use Rattle.marks.specs.Handing.{only_root, lowered, handed_on, turn};

use columns::{MARK, get, put};
use lists::children::children_of;
use meaning::kinds::Kind;
use nodes::{kind_of, node_count, wide};

// Inner: column MARK of every node of a list past numbers 1 to 5, whose first row is `base`; all else in the work space
// stays.
pub fn mark_reached(nodes: &[u32], pool: &[u32], base: usize, work: &mut [u64])
    requires laid { Laid nodes.now pool.now }
    requires nodes_bound { node_count nodes.now ≤ most_nodes }
    requires nodes_in_bounds { work_per_node * (base + node_count nodes.now) ≤ length work.old }
    ensures { work.new ≡ with_column mark_column base (node_count nodes.now) (reach.mark_of nodes.now pool.now) work.old }
{
    let n = node_count(nodes);
    mark_root(base, n, work);
    for p in (1..n).rev() {
        hand_on(nodes, pool, base, p, work);
    }
}

// At first the root alone is reached, with no Cycle node over it.
#[tactic(auto, using(columns::specs::ColumnLaws::with_none, columns::specs::ColumnLaws::with_next))]
fn mark_root(base: usize, n: usize, work: &mut [u64])
    requires { work_per_node * (base + n) ≤ length work.old }
    ensures { work.new ≡ with_column mark_column base n (only_root n) work.old }
{
    for i in 0..n {
        put(work, MARK, base + i, first_mark(i, n));
    }
}

// "The last node is the root."
fn first_mark(i: usize, n: usize) -> u64
    requires { i < n }
    ensures { result ≡ only_root n i }
{
    u64::from(i + 1 == n)
}

// One node's turn: where it is reached, its children are.
fn hand_on(nodes: &[u32], pool: &[u32], base: usize, p: usize, work: &mut [u64])
    requires p_bound { p < node_count nodes.now }
    requires well_laid { WellLaid nodes.now pool.now p }
    requires nodes_in_bounds { work_per_node * (base + node_count nodes.now) ≤ length work.old }
    requires p_bound_2 { cell work.old mark_column (base + p) < 2 ^ 32 }
    ensures { work.new ≡ turn nodes.now pool.now base p work.old }
{
    let mark = get(work, MARK, base + p);
    if mark == 0 {
        return;
    }
    let handed = handed_on(nodes, p, mark);
    lower_all(children_of(nodes, pool, p), handed, base, work);
}

// Hands a mark on to each child of a part of the pool.
fn lower_all(children: &[u32], mark: u64, base: usize, work: &mut [u64])
    requires { (i : ℕ) → i < length children.now → place mark_column (base + get_or children.now i 0) < length work.old }
    ensures { work.new ≡ lowered base mark children.now work.old }
{
    for &child in children {
        let row = base + wide(child);
        let own = get(work, MARK, row);
        put(work, MARK, row, nearer(mark, own));
    }
}

// "the least number of Cycle nodes over it": a Cycle node counts itself.
#[tactic(auto, using(meaning::proofs::Laws::KindLaws::same_cycle))]
fn handed_on(nodes: &[u32], p: usize, mark: u64) -> u64
    requires p_bound { p < node_count nodes.now }
    requires mark_bound { mark < 2 ^ 32 }
    ensures { result ≡ handed_on nodes.now p mark }
{
    if kind_of(nodes, p) == Kind::Cycle {
        mark + 1
    } else {
        mark
    }
}

// The lower of two marks that is not 0.
fn nearer(a: u64, b: u64) -> u64
    ensures { result ≡ reach.nearer a b }
{
    match (a, b) {
        (0, mark) | (mark, 0) => mark,
        _ => a.min(b),
    }
}
