// Numbers 3, 4 and 5, of one node (document 01, "Numbers a call answers with").
ghost use Rattle.std.specs.Prelude.{◌≡◌, ℕ, ◌+◌, ◌^◌, ◌<◌, ltb, leb};
ghost use Rattle.meaning.specs.Rules.Kinds.{kind_of};
ghost use Rattle.meaning.specs.Rules.Trees.{node_count};
ghost use Rattle.meaning.specs.Rules.Refusals.{numbered};
ghost use Rattle.meaning.specs.Rules.Layout.{first_fits, laid_out, children_below, layout_fault};
ghost use Rattle.lists.specs.Laid.{PartFits};

use super::children::{children_of, may_have};
use meaning::kinds::Kind;
use meaning::limits::VARIABLE_COUNT;
use meaning::numbers::{BAD_CHILD, BAD_LAYOUT, UNKNOWN_KIND};
use nodes::{count_of, first_of, kind_of, wide};

// Inner: an Err is node i's number, 3, 4 or 5, "lowest number if it has two". A child is looked at only once it is known
// that the node's part lies in the pool.
#[tactic(auto, using(meaning::proofs::Laws::KindLaws::unknown_word), unfolding(meaning::specs::Rules::Layout::layout_fault))]
pub fn layout_fault(nodes: &[u32], pool: &[u32], i: usize) -> Result<(), u32>
    requires { i < node_count nodes.now }
    ensures { result ≡ numbered (layout_fault nodes.now pool.now i) }
{
    if kind_of(nodes, i) == Kind::Unknown {
        return Err(UNKNOWN_KIND);
    }
    if !laid_out(nodes, pool, i) {
        return Err(BAD_LAYOUT);
    }
    if !children_below(nodes, pool, i) {
        return Err(BAD_CHILD);
    }
    Ok(())
}

// Do the count and the fields of node i agree with its kind and with the pool's length?
fn laid_out(nodes: &[u32], pool: &[u32], i: usize) -> bool
    requires { i < node_count nodes.now }
    ensures { result ≡ laid_out nodes.now pool.now i }
{
    let kind = kind_of(nodes, i);
    let count = count_of(nodes, i);
    may_have(kind, count) && first_fits(kind, first_of(nodes, i), count, pool.len())
}

// "Const: first is 0 or 1. Var: first is its number 0 to 255. DC: both 0"; a Program's low half is any.
fn first_fits(kind: Kind, first: usize, count: usize, entries: usize) -> bool
    requires { (first < 2 ^ 32) × (count < 2 ^ 32) }
    ensures { (word : ℕ) → kind_of word ≡ kind → result ≡ first_fits word first count entries }
{
    match kind {
        Kind::Const => first < 2,
        Kind::Program => true,
        Kind::DC => first == 0,
        Kind::Var => first < VARIABLE_COUNT,
        _ => part_fits(first, count, entries),
    }
}

// "for kinds 4 to 16 first + count" must not be "above the pool's length". Both are words, so their sum does not wrap.
fn part_fits(first: usize, count: usize, entries: usize) -> bool
    requires { (first < 2 ^ 32) × (count < 2 ^ 32) }
    ensures { result ≡ leb (first + count) entries }
{
    first + count <= entries
}

// Is every child numbered below node i?
fn children_below(nodes: &[u32], pool: &[u32], i: usize) -> bool
    requires i_bound { i < node_count nodes.now }
    requires part_fits { PartFits nodes.now pool.now i }
    ensures { result ≡ children_below nodes.now pool.now i }
{
    children_of(nodes, pool, i)
        .iter()
        .all(|&child| wide(child) < i)
}
