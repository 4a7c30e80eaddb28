// The variables below a root as bits of a word (document 01, "Comparison and separation": "bit v drives variable v").
// The plain meaning is meaning's Rules/Assignments, `occurs`, bit by bit (specs/Seen, `IsMask`). A caller has a list
// accepted, its marks in the work space, and number 11 behind it, so that each variable has a bit.
#![tactic(auto)]

ghost use Rattle.std.specs.Prelude.{◌≡◌, true, ◌^◌, ◌<◌, ◌≤◌};
ghost use Rattle.meaning.specs.Rules.Limits.{most_inputs};
ghost use Rattle.meaning.specs.Rules.Trees.{node_count, root_of};
ghost use Rattle.meaning.specs.Rules.Separation.{variables_below};
ghost use Rattle.rows.specs.Rows.{Prepared};
ghost use Rattle.input_bits.specs.Seen.{IsMask, IsBitOf};

use bits::power_of_two;
use columns::{MARK, get};
use meaning::kinds::Kind;
use nodes::{first_of, kind_of, node_count};

// Inner: the variables below the root, bit v for variable v, in one walk over the nodes. The pool is lent for the
// contract alone, here and below: which nodes the root reaches is in the marks.
pub fn input_mask(nodes: &[u32], pool: &[u32], n: usize, work: &[u64]) -> u64
    requires prepared { Prepared nodes.now pool.now 0 work.now }
    requires n_le_most_inputs { n ≤ most_inputs }
    requires n_value { variables_below nodes.now n ≡ true }
    ensures upper_bound { result < 2 ^ n }
    ensures mask { IsMask (root_of nodes.now pool.now) result }
{
    let mut mask: u64 = 0;
    for i in 0..node_count(nodes) {
        mask |= input_bit(nodes, pool, n, work, i);
    }
    mask
}

// Node i's bit, if it is a variable and the root reaches it; else none.
fn input_bit(nodes: &[u32], pool: &[u32], n: usize, work: &[u64], i: usize) -> u64
    requires prepared { Prepared nodes.now pool.now 0 work.now }
    requires n_le_most_inputs { n ≤ most_inputs }
    requires n_value { variables_below nodes.now n ≡ true }
    requires i_bound { i < node_count nodes.now }
    ensures upper_bound { result < 2 ^ n }
    ensures bit_of { IsBitOf nodes.now pool.now i result }
{
    if kind_of(nodes, i) == Kind::Var && get(work, MARK, i) > 0 {
        power_of_two(first_of(nodes, i) as u64)
    } else {
        0
    }
}
