// A test of a call that names no node (document 01, "Numbers a call answers with"). The plain meaning is meaning's
// Rules/Refusals, `require`. A call that asks test after test ends at the first that refuses, by `?`, in the document's
// order: that is `then` of the same rules (`then_go` and `then_stop` of meaning's proofs/Laws/NumberLaws).
#![tactic(auto)]

ghost use Rattle.std.specs.Prelude.{◌≡◌};
ghost use Rattle.meaning.specs.Rules.Refusals.{asked};

use meaning::Refusal;

// Done, or its number, which is one of the table's and never 0.
pub fn require(test: bool, number: u32) -> Result<(), Refusal>
    ensures { result ≡ asked test number }
{
    if test {
        return Ok(());
    }
    Err(Refusal { number, node: 0 })
}
