// The canonical list that a case expects, compared as it is read with the one that was written.
ghost use Rattle.std.specs.Prelude.{◌≤◌, length, IfOk};
ghost use Rattle.replay_canonicalise.specs.Written.{ReadOn};

use decimals::Bad;
use list_words::next_entry;

// The node words, and behind them the pool entries: as many as were written. The answer is the offset behind the last, and
// whether all are the same.
pub(crate) fn next_written(
    text: &[u8],
    at: usize,
    nodes: &[u32],
    pool: &[u32],
) -> Result<(usize, bool), Bad>
    requires { at ≤ length text.now }
    ensures { IfOk result (λ read. ReadOn (length text.now) at read.0) }
{
    let (behind, same_nodes) = next_words(text, at, nodes)?;
    let (next, same_pool) = next_words(text, behind, pool)?;
    Ok((next, same_nodes && same_pool))
}

fn next_words(text: &[u8], at: usize, written: &[u32]) -> Result<(usize, bool), Bad>
    requires { at ≤ length text.now }
    ensures { IfOk result (λ read. ReadOn (length text.now) at read.0) }
{
    let mut next = at;
    let mut same = true;
    for expected in written {
        let word = next_entry(text, next)?;
        same &= word.value == *expected;
        next = word.next;
    }
    Ok((next, same))
}
