// The output of an evaluation (document 01: "the evaluator writes state and value into lent u64 pairs"; "output past the
// answer is unchanged").
ghost use Rattle.std.specs.Prelude.{◌≡◌, ◌*◌, ◌≤◌, length};
ghost use Rattle.meaning.specs.Rules.Limits.{work_per_node};
ghost use Rattle.meaning.specs.Rules.Lent.{written};
ghost use Rattle.evaluator.specs.Output.{row_pairs};

use columns::{STATE, VALUE, get};

// the words of a pair
pub(crate) const PAIR: usize = 2;

// Hands on the pairs of the first n rows, by the number of the row: both columns are read at it, so a walk over the
// output's pairs would count the rows all the same.
pub(crate) fn write_pairs(work: &[u64], n: usize, out: &mut [u64])
    requires n_in_bounds { work_per_node * n ≤ length work.now }
    requires n_in_bounds_2 { 2 * n ≤ length out.old }
    ensures { out.new ≡ written (row_pairs work.now n) out.old }
{
    for i in 0..n {
        out[PAIR * i] = get(work, STATE, i);
        out[PAIR * i + 1] = get(work, VALUE, i);
    }
}
