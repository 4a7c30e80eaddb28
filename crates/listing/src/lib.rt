// The second pass of the canonicaliser: each distinct subtree of the root's normal form once, Programs included,
// children before parents, left to right (document 01, "Canonical list"). The plain meaning is meaning's Rules/Listing,
// `subtrees`; a caller has every node's normal form in its row (`forms`), calls `list_subtrees`, and finds the entries
// in their order and each node's number (listed, specs/Listing). The walk goes down from the root and keeps its path in
// the work space, a row for each node, so that it takes no stack and no shared node is walked twice: a node that has its
// number is passed over. A node looks for its own tree among the entries before it gets a number, so two nodes that are
// the same tree get the same. What is left to be seen at each step is specs/Path; how many turns are left at most, and
// that the entries have room, specs/Weights.
#![tactic(auto)]

mod entry;

ghost use Rattle.std.specs.Prelude.{◌≡◌, ℕ, ◌+◌, ◌-◌, ◌*◌, ◌/◌, ◌≤◌, ◌<◌, length};
ghost use Rattle.meaning.specs.Rules.Limits.{work_per_node};
ghost use Rattle.meaning.specs.Rules.Trees.{node_count};
ghost use Rattle.columns.specs.Columns.{cell, number_column};
ghost use Rattle.form_rows.specs.Forms.{Home, Formed};
ghost use Rattle.listed.specs.Entries.{Readable, Listable};
ghost use Rattle.listed.specs.Listing.{Listing};
ghost use Rattle.listing.specs.More.{kept_count};
ghost use Rattle.listing.specs.Steps.{opened_work, closed_work, lut_count, own_number, turns};
ghost use Rattle.listing.specs.Walk.{Walk};

use columns::{NEXT, NUMBER, STACK, get, put};
use entry::{list_entry, list_program, own_number};
use form_rows::{home_of, kid, kid_count};
use listed::FIRST_NUMBER;
use nodes::node_count;

// How far the walk is: so many nodes on its path, so many entries
#[derive(Clone, Copy)]
struct Progress {
    depth: usize,
    count: usize,
}

// a node on the path, which has no number yet
const MET: u64 = 1;

// Inner: lists the subtrees of the root's normal form, and answers how many there are.
pub fn list_subtrees(nodes: &[u32], pool: &[u32], work: &mut [u64]) -> usize
    requires formed { Formed nodes.now pool.now work.old (node_count nodes.now) }
    requires by_index { (i : ℕ) → i < node_count nodes.now → cell work.old number_column i ≡ 0 }
    ensures { Listing nodes.now pool.now work.new result }
{
    let root = home_of(work, node_count(nodes) - 1);
    let mut at = enter(work, Progress { depth: 0, count: 0 }, root);
    while at.depth > 0 {
        at = turn(nodes, pool, work, at);
    }
    at.count
}

// One turn, at the last node of the path: it gets its number where no child is left; else its next child is passed over
// or comes onto the path.
fn turn(nodes: &[u32], pool: &[u32], work: &mut [u64], at: Progress) -> Progress
    requires walk { Walk nodes.now pool.now work.old at.depth at.count }
    requires depth_nonzero { 0 < at.depth }
    ensures walk_2 { Walk nodes.now pool.now work.new result.depth result.count }
    ensures depth_bound { turns (node_count nodes.now) work.new result.depth < turns (node_count nodes.now) work.old at.depth }
{
    let last = at.depth - 1;
    let h = get(work, STACK, last) as usize;
    let next = get(work, NEXT, last) as usize;
    if next == kid_count(work, h) {
        return leave(nodes, pool, work, at, h);
    }
    let child = kid(nodes, pool, work, h, next);
    if get(work, NUMBER, child) == 0 {
        return enter(work, at, child);
    }
    put(work, NEXT, last, next as u64 + 1);
    at
}

// Node h comes onto the path, and the Program of the Lut that it is into the list.
fn enter(work: &mut [u64], at: Progress, h: usize) -> Progress
    requires readable { Readable work.old at.count }
    requires work_per_node_in_bounds { work_per_node * (at.count / 2) + work_per_node ≤ length work.old }
    requires work_per_node_in_bounds_2 { work_per_node * at.depth + work_per_node ≤ length work.old }
    requires work_per_node_in_bounds_3 { work_per_node * h + work_per_node ≤ length work.old }
    ensures work_after { work.new ≡ opened_work work.old at.depth at.count h }
    ensures depth_value { (result.depth ≡ at.depth + 1) × (result.count ≡ lut_count work.old at.count h) }
{
    let count = list_program(work, at.count, h);
    put(work, STACK, at.depth, h as u64);
    put(work, NEXT, at.depth, 0);
    put(work, NUMBER, h, MET);
    Progress {
        depth: at.depth + 1,
        count,
    }
}

// Node h, whose children all have their numbers, gets its own and leaves the path.
fn leave(nodes: &[u32], pool: &[u32], work: &mut [u64], at: Progress, h: usize) -> Progress
    requires listable { Listable nodes.now pool.now work.old at.count }
    requires home { Home nodes.now pool.now work.old h }
    requires depth_nonzero { (0 < at.depth) × (at.count < 2 * node_count nodes.now) }
    ensures work_after { work.new ≡ closed_work nodes.now pool.now work.old at.count h }
    ensures depth_value { (result.depth ≡ at.depth - 1) × (result.count ≡ kept_count (own_number nodes.now pool.now work.old at.count h) at.count) }
{
    let number = own_number(nodes, pool, work, at.count, h);
    let count = list_entry(work, number, at.count, 2 * h);
    put(work, NUMBER, h, number as u64 + FIRST_NUMBER);
    Progress {
        depth: at.depth - 1,
        count,
    }
}
