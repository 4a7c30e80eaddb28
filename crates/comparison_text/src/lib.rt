// A comparison in plain words (document 01, "Comparison and separation": "The result carries verdict, i and both
// answers"): what a program tells a user with. No contract says what is written; a program's output is recorded.
#![tactic(auto)]

use answer_text::{write_answer, write_variable};
use meaning::{Check, Comparison};
use std::io;
use std::io::Write;

// The verdict; and where an assignment decides, which one, variable by variable, and both answers. The variables are
// those below the first root, lowest first.
pub fn write_comparison<W: Write>(
    out: &mut W,
    comparison: Comparison,
    variables: &[usize],
) -> io::Result<()> {
    match comparison.verdict {
        Check::Equiv => {
            out.write_all(b"equivalent: the same tree, or one equal value under every assignment\n")
        }
        Check::NotEquiv => {
            out.write_all(b"not equivalent: two values differ")?;
            write_decided(out, comparison, variables)
        }
        Check::Inconclusive => {
            out.write_all(b"inconclusive: a failure stands")?;
            write_decided(out, comparison, variables)
        }
    }
}

fn write_decided<W: Write>(
    out: &mut W,
    comparison: Comparison,
    variables: &[usize],
) -> io::Result<()> {
    let index = comparison.index;
    writeln!(out, " at assignment {index}")?;
    write_assignment(out, index, variables)?;
    write_answers(out, comparison)
}

fn write_answers<W: Write>(out: &mut W, comparison: Comparison) -> io::Result<()> {
    out.write_all(b"  first list: ")?;
    write_answer(out, comparison.first)?;
    out.write_all(b"  second list: ")?;
    write_answer(out, comparison.second)
}

// "bit j of assignment i drives the j-th smallest variable below the first root"
fn write_assignment<W: Write>(out: &mut W, index: u64, variables: &[usize]) -> io::Result<()> {
    let mut bits = index;
    for variable in variables {
        write_line(out, *variable, bits % 2)?;
        bits /= 2;
    }
    Ok(())
}

fn write_line<W: Write>(out: &mut W, variable: usize, bit: u64) -> io::Result<()> {
    write_variable(out, variable as u64, bit)?;
    out.write_all(b"\n")
}
