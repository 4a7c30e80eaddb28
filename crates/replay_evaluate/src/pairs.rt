// The pairs that a case expects (document 01, "Answers of a node": "Node by node, the evaluator writes state and value into
// lent u64 pairs"), compared as they are read with those that were written.
ghost use Rattle.std.specs.Prelude.{◌≤◌, length, IfOk};
ghost use Rattle.replay_evaluate.specs.Inputs.{Reaches};

use decimals::{Bad, next_word};

// As many words as were written: the offset behind the last, and whether all are the same. A word is owed, so the text's end
// is bad.
pub(crate) fn next_pairs(text: &[u8], at: usize, written: &[u64]) -> Result<(usize, bool), Bad>
    requires { at ≤ length text.now }
    ensures { IfOk result (λ read. Reaches (length text.now) at read.0) }
{
    let mut next = at;
    let mut same = true;
    for expected in written {
        let Some(word) = next_word(text, next)? else {
            return Err(Bad { offset: text.len() });
        };
        same &= word.value == *expected;
        next = word.next;
    }
    Ok((next, same))
}
