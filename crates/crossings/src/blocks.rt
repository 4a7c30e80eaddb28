// The search block by block. A block is an assignment with its run bits clear, the base, and all that differ from it in
// run bits alone: the base is the cleared self of each, so it is answered once. The blocks are gone through in the
// order of their bases and not in that of the assignments, so the lowest so far is kept, and nothing above it is tried.
// Both walks ask the next word of the one before: an iterator of them would begin elsewhere in each, and say no more.
ghost use Rattle.std.specs.Prelude.{◌≡◌, ◌<◌, length};
ghost use Rattle.meaning.specs.Rules.Trees.{root_of};
ghost use Rattle.meaning.specs.Rules.Assignments.{upto};
ghost use Rattle.rows.specs.Rows.{Prepared};
ghost use Rattle.inputs.specs.Driving.{Drivable};
ghost use Rattle.crossings.specs.Lowest.{Apart, ApartFrom, Lowered, LoweredTo, NoneInBlock, NoneTo};

use super::trial::{answer_under, differs_at};
use subsets::next_among;

// The lowest assignment below `limit` that differs from its base, or `limit`. `free` has the variables that bases
// drive, `marked` the run signals. It ends where all that is left lies above the lowest so far: a block begins with its
// base, and the next after that has the lowest run signal set.
pub(crate) fn lowest_of_blocks(
    nodes: &[u32],
    pool: &[u32],
    variables: &[usize],
    free: u64,
    marked: u64,
    limit: u64,
    bytes: &mut [u8],
    work: &mut [u64],
) -> u64
    requires marked_nonzero { (0 < marked) × Apart free marked }
    requires variables_value { variables.now ≡ upto (length variables.now) }
    requires prepared { Prepared nodes.now pool.now 0 work.old }
    requires drivable { Drivable variables.now bytes.old }
    ensures lowered_to { LoweredTo (root_of nodes.now pool.now) (length variables.now) free marked limit result }
    ensures none_to { NoneTo (root_of nodes.now pool.now) (length variables.now) free marked free result }
    ensures prepared_2 { Prepared nodes.now pool.now 0 work.new }
    ensures drivable_2 { Drivable variables.now bytes.new }
{
    let first = next_among(marked, 0);
    let mut base: u64 = 0;
    let mut lowest = lowest_in_block(nodes, pool, variables, base, marked, limit, bytes, work);
    while base < free {
        base = next_among(free, base);
        if lowest <= base | first {
            return lowest;
        }
        lowest = lowest_in_block(nodes, pool, variables, base, marked, lowest, bytes, work);
    }
    lowest
}

// The lowest of one block that differs from its base, if it is below the lowest so far; else that.
fn lowest_in_block(
    nodes: &[u32],
    pool: &[u32],
    variables: &[usize],
    base: u64,
    marked: u64,
    lowest: u64,
    bytes: &mut [u8],
    work: &mut [u64],
) -> u64
    requires apart_from { ApartFrom marked base }
    requires variables_value { variables.now ≡ upto (length variables.now) }
    requires prepared { Prepared nodes.now pool.now 0 work.old }
    requires drivable { Drivable variables.now bytes.old }
    ensures lowered { Lowered (root_of nodes.now pool.now) (length variables.now) marked base lowest result }
    ensures none_in_block { NoneInBlock (root_of nodes.now pool.now) (length variables.now) marked base marked result }
    ensures prepared_2 { Prepared nodes.now pool.now 0 work.new }
    ensures drivable_2 { Drivable variables.now bytes.new }
{
    let cleared = answer_under(nodes, pool, variables, base, bytes, work);
    let mut run: u64 = 0;
    while run < marked {
        run = next_among(marked, run);
        let index = base | run;
        if lowest <= index {
            return lowest;
        }
        if differs_at(nodes, pool, variables, index, cleared, bytes, work) {
            return index;
        }
    }
    lowest
}
