// Before a search of assignments that may be long: whether a list is searched at all, the variables below its root
// (`variables`), and the line that tells a user of the wait. A program writes it to standard error, so that standard
// output has its answer alone; no contract says what is written.
#![tactic(auto)]

pub mod variables;

ghost use Rattle.std.specs.Prelude.{◌≡◌, ◌≤◌, length};
ghost use Rattle.list_room.specs.Written.{work_room, Taken};
ghost use Rattle.long_searches.specs.Accepted as accepted;

use bits::power_of_two;
use meaning::limits::MOST_INPUTS;
use sizes::sizes;
use std::io;
use std::io::Write;
use verifier::sound;

// From so many variables on, a search may take long.
const MANY: usize = 16;

// Do the numbers 1 to 8 let a list pass? One that they refuse is not searched; one that passes has its marks in the
// work space (specs/Accepted, `accepted_prepares`). Inner: the list and the room are those of a program.
#[tactic(auto, using(crate::specs::Accepted::passed))]
pub fn is_accepted(nodes: &[u32], pool: &[u32], work: &mut [u64]) -> bool
    requires taken { Taken nodes.now pool.now }
    requires work_room_in_bounds { work_room ≤ length work.old }
    ensures value { result ≡ accepted.is_accepted nodes.now pool.now }
    ensures work_after { work.new ≡ accepted.work_left nodes.now pool.now work.old }
{
    match sizes(nodes, pool) {
        Ok(()) => sound(nodes, pool, 0, work).is_ok(),
        Err(_) => false,
    }
}

// So many variables of what the caller names. Over 30 none are tried: equal trees are told without, and all else is
// refused.
pub fn write_warning<W: Write>(err: &mut W, count: usize, variables: &[u8]) -> io::Result<()> {
    if count < MANY {
        return Ok(());
    }
    if count > MOST_INPUTS {
        return Ok(());
    }
    let assignments = power_of_two(count as u64);
    write!(err, "{count}")?;
    err.write_all(variables)?;
    writeln!(
        err,
        ": up to {assignments} assignments to try, which may take long"
    )
}
