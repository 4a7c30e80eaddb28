// "at the lowest faulty node": one search from node 0 on, for every test that is made node by node (document 01,
// "Order"). The plain meaning is meaning's Rules/Refusals, `at_lowest`, of the faults of that test; the verifier and the
// canonicaliser call `lowest_fault` with the test of one node as a closure (specs/Search, `Tests`).
#![tactic(auto)]

ghost use Rattle.std.specs.Prelude.{◌≡◌, ℕ, ◌^◌, ◌<◌, ◌≤◌};
ghost use Rattle.meaning.specs.Rules.Refusals.{answered, at_lowest};
ghost use Rattle.search.specs.Search.{Tests};

use meaning::Refusal;

// Inner: an Err is the lowest of `count` nodes with a fault, and its number. The test of a node answers its number, of any
// faults that it looks for.
pub fn lowest_fault<F: Fn(usize) -> Result<(), u32>>(count: usize, fault: F) -> Result<(), Refusal>
    requires count_bound { count < 2 ^ 32 }
    requires callable { (i : ℕ) → i < count → F.pre fault i }
    ensures { (faults : ℕ → ℕ) → Tests (F.post fault) count faults → result ≡ answered (at_lowest count faults) }
{
    for i in 0..count {
        if let Err(number) = fault(i) {
            return Err(Refusal {
                number,
                node: i as u32,
            });
        }
    }
    Ok(())
}
