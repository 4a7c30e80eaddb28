// What a program that reads cases from standard input says: which differ, how many there were and how many differ, or
// what is wrong with its input. No contract can say what is written; each replay's output is recorded. Beside it the
// loop over the cases (specs/Tallies.antt), which goes by the turn over one case (specs/Turns.antt: it gets on in the
// text).
#![tactic(auto)]

mod differs;
mod input;
mod tally;
mod turn;

ghost use Rattle.std.specs.Prelude.{ℕ, ◌+◌, ◌^◌, ◌<◌, length, IfOk, IfSome};
ghost use Rattle.replay_report.specs.Turns.{GetsOn};

pub use differs::{told_answer, told_refusal, told_work};
pub use input::read_full;
use list_room::{TEXT_ROOM, text_room};
use std::io;
use std::io::Read;
pub use tally::{Tally, replay};
pub use turn::{Fault, Tried};

// A replay from its input to its last line: what each program is, beside its turn over one case and its usage. An input that
// fills the whole room may go on behind it, and is not replayed in part. The stack must hold the text, two megabytes, and
// what the turn needs.
pub fn run<R: Read, F: Fn(u64, &[u8], usize) -> Result<Option<Tried>, Fault>>(
    rt: &impl Print,
    input: &mut R,
    usage: &[u8],
    turn: F,
) -> io::Result<()>
    requires callable { F.IsAlwaysCallable turn }
    requires gets_on { (number at : ℕ) (t : _) (r : _) → number < 2 ^ 64 → at < 2 ^ 64 → F.post turn number t at r
        → IfOk r (λ case. IfSome case (GetsOn (length t.now) (at + 1))) }
{
    let mut text = text_room();
    let n = read_full(input, &mut text)?;
    if n == TEXT_ROOM {
        return too_long(rt, n);
    }
    match replay(&text[..n], turn) {
        Ok(tally) => count(rt, tally, usage),
        Err(Fault::Malformed(bad)) => println!(rt; "malformed input at offset {}", bad.offset),
        Err(Fault::Unwritten(why)) => Err(why),
    }
}

// Standard input without a case is most likely a program started without its file, so that is answered with the usage.
fn count(rt: &impl Print, tally: Tally, usage: &[u8]) -> io::Result<()> {
    if tally.cases == 0 {
        print!(rt; "no cases. usage: ")?;
        rt.write_all(usage)?;
        return println!(rt;);
    }
    println!(rt; "{} cases, {} differ", tally.cases, tally.differ)
}

fn too_long(rt: &impl Print, room: usize) -> io::Result<()> {
    println!(rt; "input of {room} bytes or more")
}
