// Number 6 of one node (document 01, "Verification"; 000, `verify` and `verify_rec`). The plain meaning is meaning's
// Rules/Verification: `wrong`, a node's own fault from its children, and `verify_fault`. A caller uses `verify_fault`, with
// the node's mark at hand; which node is the lowest faulty one is the verifier's to find. A rule looks at a child no
// further than its kind word and its datum, so the code reads those and never walks down.
#![tactic(auto)]

ghost use Rattle.std.specs.Prelude.{◌≡◌, Bool, ◌||◌, ◌<◌};
ghost use Rattle.meaning.specs.Rules.Trees.{node_count};
ghost use Rattle.meaning.specs.Rules.Refusals.{some, numbered};
ghost use Rattle.meaning.specs.Rules.Reach.{mark_of};
ghost use Rattle.meaning.specs.Rules.Verification.{is_program, is_bus, lut_wrong, arg_wrong, verify_fault};
ghost use Rattle.meaning.specs.Rules.Verification as rule;
ghost use Rattle.lists.specs.Laid.{Laid};
ghost use Rattle.faults.specs.Leaves.{AreNodes, leaf_of, leaves};

use lists::children::children_of;
use meaning::kinds::Kind;
use meaning::numbers::NOT_VERIFIED;
use nodes::{datum_of, kind_of, wide};
use table_rows::table_fits;

// Inner: an Err is number 6, of node i of a list past numbers 3 to 5, whose mark is given. A node that is not reached has
// no fault.
#[tactic(auto, using(crate::specs::Leaves::fault_unreached, crate::specs::Leaves::fault_reached))]
pub fn verify_fault(nodes: &[u32], pool: &[u32], i: usize, mark: u64) -> Result<(), u32>
    requires laid { Laid nodes.now pool.now }
    requires i_bound { i < node_count nodes.now }
    requires mark_value { mark ≡ mark_of nodes.now pool.now i }
    ensures { result ≡ numbered (verify_fault nodes.now pool.now i) }
{
    if mark == 0 {
        return Ok(());
    }
    let children = children_of(nodes, pool, i);
    if wrong(nodes, kind_of(nodes, i), children, mark - 1) {
        return Err(NOT_VERIFIED);
    }
    Ok(())
}

// Is a node of this kind over these children wrong, with `depth` Cycle nodes over it?
fn wrong(nodes: &[u32], kind: Kind, children: &[u32], depth: u64) -> bool
    requires { AreNodes nodes.now children.now }
    ensures { result ≡ rule.wrong kind depth (leaves nodes.now children.now) }
{
    match kind {
        Kind::Nor | Kind::And | Kind::Xor => any_program(nodes, children),
        Kind::Lut => lut_wrong(nodes, children),
        Kind::Bus => bus_wrong(nodes, children),
        Kind::Arg => arg_wrong(nodes, children, depth),
        Kind::Unknown => true,
        _ => false,
    }
}

// Is a Program among the children?
fn any_program(nodes: &[u32], children: &[u32]) -> bool
    requires { AreNodes nodes.now children.now }
    ensures { result ≡ some is_program (leaves nodes.now children.now) }
{
    children.iter().any(|&child| is_program(nodes, child))
}

// "a Bus holding a Program or Bus"
fn bus_wrong(nodes: &[u32], children: &[u32]) -> bool
    requires { AreNodes nodes.now children.now }
    ensures { result ≡ some (λ t. is_program t || is_bus t) (leaves nodes.now children.now) }
{
    children
        .iter()
        .any(|&child| is_program(nodes, child) || is_bus(nodes, child))
}

// "a Lut without children or with more than seven; its first child not a Program; with k = children - 1 below 6, a program
// of 2^(2^k) or more": past the Program, that is the range test of the truth-table routines.
#[tactic(auto, using(crate::specs::Leaves::lut_words))]
fn lut_wrong(nodes: &[u32], children: &[u32]) -> bool
    requires { AreNodes nodes.now children.now }
    ensures { result ≡ lut_wrong (leaves nodes.now children.now) }
{
    match children {
        [] => true,
        [first, operands @ ..] => {
            !is_program(nodes, *first)
                || !table_fits(datum_of(nodes, wide(*first)), operands.len() as u64)
        }
    }
}

// "an Arg whose child isn't a Program, or whose index is at or above the least number of Cycle nodes over it"
fn arg_wrong(nodes: &[u32], children: &[u32], depth: u64) -> bool
    requires { AreNodes nodes.now children.now }
    ensures { result ≡ arg_wrong depth (leaves nodes.now children.now) }
{
    match children {
        [] => true,
        [first, ..] => !is_program(nodes, *first) || depth <= datum_of(nodes, wide(*first)),
    }
}

// Is that child a Program?
#[tactic(auto, using(meaning::proofs::Laws::KindLaws::same_word))]
fn is_program(nodes: &[u32], child: u32) -> bool
    requires { child < node_count nodes.now }
    ensures { result ≡ is_program (leaf_of nodes.now child) }
{
    kind_of(nodes, wide(child)) == Kind::Program
}

// Is it a Bus?
#[tactic(auto, using(meaning::proofs::Laws::KindLaws::same_word))]
fn is_bus(nodes: &[u32], child: u32) -> bool
    requires { child < node_count nodes.now }
    ensures { result ≡ is_bus (leaf_of nodes.now child) }
{
    kind_of(nodes, wide(child)) == Kind::Bus
}
