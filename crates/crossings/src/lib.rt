// The lowest crossing (document 01, "Comparison and separation": "the lowest assignment that answers differently from
// itself with its run bits cleared"; added). The plain meaning is meaning's Rules/Separation, `crossing_index`, which
// asks every assignment from 0 on. The search asks less and answers the same, which is its contract:
// - variables that the root does not reach stay 0, since they change no answer (specs/Depends);
// - an assignment whose run bits are clear is its own cleared self, and is not compared with itself;
// - the assignments that differ in run bits alone are a block, and their cleared self is answered once (specs/Blocks);
// - and so that a low crossing is found soon whatever the marks are, it goes by stages, each of a few variables more
//   than the one before (specs/Stages).
// A caller has a list accepted and number 11 behind it, and calls `lowest_crossing`.
#![tactic(auto)]

mod blocks;
mod stages;
pub mod trial;

ghost use Rattle.std.specs.Prelude.{◌≡◌, ◌^◌, ◌<◌, ◌≤◌, length};
ghost use Rattle.meaning.specs.Rules.Trees.{root_of};
ghost use Rattle.meaning.specs.Rules.Search.{lowest};
ghost use Rattle.meaning.specs.Rules.Separation.{crosses, crossing_index};
ghost use Rattle.rows.specs.Rows.{Prepared};
ghost use Rattle.inputs.specs.Driving.{Drivable};
ghost use Rattle.input_bits.specs.Seen.{IsMask};
ghost use Rattle.crossings.specs.Searching.{Searchable, IsLowestBelow, crossing_found};

use bits::{low_bits, power_of_two};
use blocks::lowest_of_blocks;
use stages::next_stage;

// Inner: the number of the lowest crossing of the n variables, if there is one. `inputs` has the variables below the
// root, `marks` the run signals.
pub fn lowest_crossing(
    nodes: &[u32],
    pool: &[u32],
    variables: &[usize],
    inputs: u64,
    marks: u64,
    bytes: &mut [u8],
    work: &mut [u64],
) -> Option<u64>
    requires searchable { Searchable nodes.now pool.now variables.now inputs marks }
    requires prepared { Prepared nodes.now pool.now 0 work.old }
    requires drivable { Drivable variables.now bytes.old }
    ensures value { result ≡ crossing_found (root_of nodes.now pool.now) (length variables.now) marks }
    ensures prepared_2 { Prepared nodes.now pool.now 0 work.new }
    ensures drivable_2 { Drivable variables.now bytes.new }
{
    let n = variables.len();
    let mut places = 0;
    while power_of_two(places as u64) <= inputs {
        places = next_stage(inputs, places, n);
        if let Some(index) = lowest_of_stage(
            nodes, pool, variables, inputs, marks, places, bytes, work,
        ) {
            return Some(index);
        }
    }
    None
}

// The lowest crossing of the first `places` variables, if there is one.
fn lowest_of_stage(
    nodes: &[u32],
    pool: &[u32],
    variables: &[usize],
    inputs: u64,
    marks: u64,
    places: usize,
    bytes: &mut [u8],
    work: &mut [u64],
) -> Option<u64>
    requires searchable { Searchable nodes.now pool.now variables.now inputs marks }
    requires places_in_bounds { places ≤ length variables.now }
    requires prepared { Prepared nodes.now pool.now 0 work.old }
    requires drivable { Drivable variables.now bytes.old }
    ensures value { IsLowestBelow (crosses (root_of nodes.now pool.now) (length variables.now) marks) (2 ^ places) result }
    ensures prepared_2 { Prepared nodes.now pool.now 0 work.new }
    ensures drivable_2 { Drivable variables.now bytes.new }
{
    let marked = low_bits(inputs & marks, places as u64);
    let limit = power_of_two(places as u64);
    if marked == 0 {
        return None;
    }
    let free = low_bits(inputs & !marks, places as u64);
    let found = lowest_of_blocks(nodes, pool, variables, free, marked, limit, bytes, work);
    if found < limit { Some(found) } else { None }
}
