// A separation in plain words (document 01, "Comparison and separation": "Crossing carries i and the answers at i and
// at i with its run bits cleared"): what a program tells a user with. A run signal is a marked variable. No contract
// says what is written; a program's output is recorded.
#![tactic(auto)]

use answer_text::{write_answer, write_variable};
use meaning::{Judgement, Separation};
use std::io;
use std::io::Write;

// The judgement; and of a crossing, where it stands: the run signals that are set, all n variables, and both answers.
pub fn write_separation<W: Write>(
    out: &mut W,
    separation: Separation,
    n: u32,
    marks: u32,
) -> io::Result<()> {
    match separation.judgement {
        Judgement::Separate => write_separate(out, marks),
        Judgement::Crossing => write_crossing(out, separation, n, marks),
    }
}

// A user who named no run signal is told so, since the judgement then says nothing of the list.
fn write_separate<W: Write>(out: &mut W, marks: u32) -> io::Result<()> {
    if marks == 0 {
        return out.write_all(b"separate: no run signal was named, so none changes the answer\n");
    }
    out.write_all(
        b"separate: no run signal ever changes the answer, whatever the other signals are\n",
    )
}

fn write_crossing<W: Write>(
    out: &mut W,
    separation: Separation,
    n: u32,
    marks: u32,
) -> io::Result<()> {
    let index = separation.index;
    writeln!(
        out,
        "crossing: clearing the run signals changes the answer at assignment {index}"
    )?;
    out.write_all(b"  run signals set there:")?;
    write_names(out, index & marks as u64, n)?;
    out.write_all(b"\n")?;
    write_assignment(out, index, n, marks)?;
    write_answers(out, separation)
}

// Their names, one behind the other: bit v stands for variable v. The bits are halved, since no shift by n is known to be
// in range here.
fn write_names<W: Write>(out: &mut W, signals: u64, n: u32) -> io::Result<()> {
    let mut bits = signals;
    for v in 0..n {
        write_name(out, v, bits % 2)?;
        bits /= 2;
    }
    Ok(())
}

fn write_name<W: Write>(out: &mut W, variable: u32, bit: u64) -> io::Result<()> {
    if bit == 1 {
        write!(out, " v{variable}")?;
    }
    Ok(())
}

// "bit v drives variable v", and bit v of the marks says that it is a run signal.
fn write_assignment<W: Write>(out: &mut W, index: u64, n: u32, marks: u32) -> io::Result<()> {
    let mut bits = index;
    let mut rest = marks;
    for v in 0..n {
        write_signal(out, v, bits % 2, rest % 2)?;
        bits /= 2;
        rest /= 2;
    }
    Ok(())
}

fn write_signal<W: Write>(out: &mut W, variable: u32, bit: u64, mark: u32) -> io::Result<()> {
    write_variable(out, variable as u64, bit)?;
    if mark == 1 {
        out.write_all(b", a run signal")?;
    }
    out.write_all(b"\n")
}

fn write_answers<W: Write>(out: &mut W, separation: Separation) -> io::Result<()> {
    out.write_all(b"  as it is: ")?;
    write_answer(out, separation.run)?;
    out.write_all(b"  with the run signals cleared: ")?;
    write_answer(out, separation.cleared)
}
