// Number 11 (document 01, "Numbers a call answers with": "n above 30, a variable at n or above anywhere in the list, or
// a mark at bit n or above"). The plain meaning is meaning's Rules/Separation, `bounded`; a caller whose list has its
// layout calls `bounded`, for any n and any marks.
#![tactic(auto)]

ghost use Rattle.std.specs.Prelude.{◌≡◌, ◌<◌};
ghost use Rattle.meaning.specs.Rules.Trees.{node_count};
ghost use Rattle.meaning.specs.Rules.Refusals.{answered};
ghost use Rattle.meaning.specs.Rules.Separation as rule;

use bits::power_of_two;
use meaning::Refusal;
use meaning::kinds::Kind;
use meaning::limits::MOST_INPUTS;
use meaning::numbers::OUT_OF_BOUNDS;
use nodes::{first_of, kind_of, node_count, wide};
use refusals::require;

// The test, for any list, any n and any marks.
pub fn bounded(nodes: &[u32], n: u32, marks: u32) -> Result<(), Refusal>
    ensures { result ≡ answered (rule.bounded nodes.now n marks) }
{
    require(in_bounds(nodes, n, marks), OUT_OF_BOUNDS)
}

// n is held against its bound first, so that it is never too large a shift.
#[tactic(auto, unfolding(meaning::specs::Rules::Separation::in_bounds))]
fn in_bounds(nodes: &[u32], n: u32, marks: u32) -> bool
    ensures { result ≡ rule.in_bounds nodes.now n marks }
{
    wide(n) <= MOST_INPUTS
        && variables_below(nodes, wide(n))
        && (marks as u64) < power_of_two(n as u64)
}

// "anywhere in the list": reached from the root or not.
fn variables_below(nodes: &[u32], n: usize) -> bool
    ensures { result ≡ rule.variables_below nodes.now n }
{
    (0..node_count(nodes)).all(|i| !is_outside(nodes, n, i))
}

// Is node i "a variable at n or above"?
fn is_outside(nodes: &[u32], n: usize, i: usize) -> bool
    requires { i < node_count nodes.now }
    ensures { result ≡ rule.outside nodes.now n i }
{
    kind_of(nodes, i) == Kind::Var && n <= first_of(nodes, i)
}
