// The search (document 01, "Slips": "the first deciding assignment wins"): the lowest assignment at which the two roots
// have not one equal value decides, be it by a difference or by a failure, and no later one is looked at.
ghost use Rattle.std.specs.Prelude.{◌≡◌};
ghost use Rattle.meaning.specs.Rules.Trees.{root_of};
ghost use Rattle.meaning.specs.Rules.Assignments.{inputs};
ghost use Rattle.meaning.specs.Rules.Comparison.{found};
ghost use Rattle.inputs.specs.Driving.{Drivable};
ghost use Rattle.trials.specs.Trial.{BothPrepared};
ghost use Rattle.comparer.specs.Searched.{searched};

use bits::power_of_two;
use comparisons::{agree, decided_at, equivalent};
use meaning::Comparison;
use trials::answers_at;

// The variables are those below the first root, at most 30: "30 inputs run to the end".
pub(crate) fn lowest_deciding(
    nodes: &[u32],
    pool: &[u32],
    second_nodes: &[u32],
    second_pool: &[u32],
    variables: &[usize],
    bytes: &mut [u8],
    work: &mut [u64],
) -> Comparison
    requires both_prepared { BothPrepared nodes.now pool.now second_nodes.now second_pool.now work.old }
    requires variables_value { variables.now ≡ inputs (root_of nodes.now pool.now) }
    requires drivable { Drivable variables.now bytes.old }
    ensures { result ≡ found (searched (root_of nodes.now pool.now) (root_of second_nodes.now second_pool.now)) }
{
    let total = power_of_two(variables.len() as u64);
    for index in 0..total {
        let roots = answers_at(
            nodes,
            pool,
            second_nodes,
            second_pool,
            variables,
            index,
            bytes,
            work,
        );
        let first = roots.first;
        let second = roots.second;
        if !agree(first, second) {
            return decided_at(index, first, second);
        }
    }
    equivalent()
}
