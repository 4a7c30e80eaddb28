// The run signals that arguments name, as the separator takes them: bit v of one word is the mark of variable v.
ghost use Rattle.std.specs.Prelude.{◌≡◌, ◌^◌, ◌<◌};

use super::words::number_of_argument;
use std::io;
use std::io::Write;

// Behind the program's own name, the list and N
const FIRST_MARK: usize = 3;

// A word of marks has so many bits.
const MARK_COUNT: u32 = 32;

// All marks together; named twice, a variable is marked all the same.
pub(crate) fn marks_of_arguments(rt: &HostRuntime, arguments: usize) -> Option<u32> {
    let mut marks = 0;
    for i in FIRST_MARK..arguments {
        marks |= mark_of_argument(rt, i)?;
    }
    Some(marks)
}

// Whether there is such a variable is for number 11 to say, as long as there is a bit for its mark.
fn mark_of_argument(rt: &HostRuntime, i: usize) -> Option<u32> {
    let variable = number_of_argument(rt, i, b"run signal")?;
    if variable >= MARK_COUNT {
        let _ = write_past_the_marks(&mut rt.stderr(), variable);
        return None;
    }
    Some(mark_of(variable))
}

fn mark_of(variable: u32) -> u32
    requires { variable < 32 }
    ensures { result ≡ 2 ^ variable }
{
    1 << variable
}

fn write_past_the_marks<W: Write>(err: &mut W, variable: u32) -> io::Result<()> {
    writeln!(
        err,
        "run signal {variable}: only variables 0 to 31 can be marked as run signals"
    )
}
