// Replays cases of the truth-table routines from standard input against the crate `tables`, and says how many there were
// and which of them differ. The cases are made by vectors/tables.py, which computes the answers by its own method.
#![tactic(auto)]

mod answers;
mod rows;

ghost use Rattle.std.specs.Prelude.{◌+◌, length, IfOk, IfSome};
ghost use Rattle.replay_report.specs.Turns.{GetsOn};

use answers::agrees;
use case_rows::next_case_row;
use replay_report::{Fault, Tried, run};
use rows::{ROW_WORDS, largest};
use std::io;

// Says so where the case differs; the answer is whether it does.
fn differs(rt: &impl Print, case: u64, row: &[u64; ROW_WORDS]) -> io::Result<bool> {
    if agrees(row) {
        return Ok(false);
    }
    println!(rt; "case {case} differs")?;
    Ok(true)
}

fn next_case(rt: &impl Print, number: u64, text: &[u8], at: usize) -> Result<Option<Tried>, Fault>
    ensures { IfOk result (λ case. IfSome case (GetsOn (length text.now) (at + 1))) }
{
    let mut row = [0u64; ROW_WORDS];
    let Some(next) = next_case_row(text, at, &mut row, &largest())? else {
        return Ok(None);
    };
    Ok(Some(Tried {
        next,
        differs: differs(rt, number, &row)?,
    }))
}

fn main(rt: HostRuntime) -> io::Result<()> {
    run(
        &rt,
        &mut rt.stdin(),
        b"replay_tables < FILE, with a case of 17 decimal words to a line",
        |number, text, at| next_case(&rt, number, text, at),
    )
}
