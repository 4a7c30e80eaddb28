// What a case lends filled, as it stands behind the case's row: the node list and the assignment's bytes.
ghost use Rattle.std.specs.Prelude.{◌≤◌, length, IfOk};
ghost use Rattle.decimals.specs.Claims.{Ahead};
ghost use Rattle.replay_evaluate.specs.Inputs.{Reaches};

use decimals::{Bad, Word};
use list_words::{next_entry, next_list};

// The lent places are scratch where there is a fault.
pub(crate) fn next_inputs(
    text: &[u8],
    at: usize,
    nodes: &mut [u32],
    pool: &mut [u32],
    bytes: &mut [u8],
) -> Result<usize, Bad>
    requires { at ≤ length text.now }
    ensures { IfOk result (Reaches (length text.now) at) }
{
    let next = next_list(text, at, nodes, pool)?;
    next_bytes(text, next, bytes)
}

// Where there is a fault the places hold the bytes read so far, and behind those what was there.
fn next_bytes(text: &[u8], at: usize, places: &mut [u8]) -> Result<usize, Bad>
    requires { at ≤ length text.now }
    ensures { IfOk result (Reaches (length text.now) at) }
{
    let mut next = at;
    for place in places.iter_mut() {
        let byte = next_byte(text, next)?;
        *place = byte.value;
        next = byte.next;
    }
    Ok(next)
}

// A larger word is bad at the offset from which it was read. A byte that number 12 refuses is a byte all the same.
fn next_byte(text: &[u8], at: usize) -> Result<Word<u8>, Bad>
    ensures { IfOk result (λ byte. Ahead at byte.next (length text.now)) }
{
    let word = next_entry(text, at)?;
    match u8::try_from(word.value) {
        Ok(value) => Ok(Word {
            value,
            next: word.next,
        }),
        Err(_) => Err(Bad { offset: at }),
    }
}
