// Replays cases of the separation from standard input against the crate `separator`, and says how many there were and
// which of them differ, be it in the refusal, in the judgement, in the assignment, in an answer there or in what is
// left of the work space. The cases are made by vectors/separate.py, which has the answers from a model of document 01.
#![tactic(auto)]

mod cases;

ghost use Rattle.std.specs.Prelude.{◌+◌, ◌≤◌, length, IfOk, IfSome};
ghost use Rattle.replay_separate.specs.Cases.{Fits};
ghost use Rattle.replay_report.specs.Turns.{GetsOn};

use case_rows::next_case_row;
use cases::{Bounds, bounds_of, largest};
use lent_words::{fill, is_left};
use list_room::{node_room, pool_room, work_room};
use list_words::next_list;
use replay_report::{Fault, Tried, run};
use replay_results::{Expected, ROW_WORDS, expected_of, judged};
use separation_words::ten_words;
use separator::separate;
use std::io;

// ---- one case

// Calls with work space that is filled, and looks at what is left of it. The answer is whether the case
// differs.
fn called(
    rt: &impl Print,
    number: u64,
    bounds: Bounds,
    expected: Expected,
    nodes: &[u32],
    pool: &[u32],
    work: &mut [u64],
) -> io::Result<bool> {
    fill(work);
    let given = separate(nodes, pool, bounds.n, bounds.marks, work);
    let left = is_left(work, 0, expected.cleared);
    judged(rt, number, b"judgement", expected, &ten_words(given), left)
}

// Work space as long as the case asks. Each case has new room, so that none finds what another left.
fn with_space(
    rt: &impl Print,
    number: u64,
    row: &[u64; ROW_WORDS],
    nodes: &[u32],
    pool: &[u32],
) -> io::Result<bool>
    requires { Fits row.now }
{
    let mut work = work_room();
    let words = row[4] as usize;
    called(
        rt,
        number,
        bounds_of(row),
        expected_of(row),
        nodes,
        pool,
        &mut work[..words],
    )
}

// Reads the case's list into what is lent for it, and tries the case.
fn tried(
    rt: &impl Print,
    number: u64,
    row: &[u64; ROW_WORDS],
    text: &[u8],
    at: usize,
    nodes: &mut [u32],
    pool: &mut [u32],
) -> Result<Tried, Fault>
    requires at_in_bounds { at ≤ length text.now }
    requires fits { Fits row.now }
    ensures { IfOk result (GetsOn (length text.now) at) }
{
    let next = next_list(text, at, nodes, pool)?;
    Ok(Tried {
        next,
        differs: with_space(rt, number, row, nodes, pool)?,
    })
}

// Node words and pool entries as many as the case has.
fn in_room(
    rt: &impl Print,
    number: u64,
    row: &[u64; ROW_WORDS],
    text: &[u8],
    at: usize,
) -> Result<Tried, Fault>
    requires at_in_bounds { at ≤ length text.now }
    requires fits { Fits row.now }
    ensures { IfOk result (GetsOn (length text.now) at) }
{
    let mut nodes = node_room();
    let mut pool = pool_room();
    let words = row[0] as usize;
    let entries = row[1] as usize;
    tried(
        rt,
        number,
        row,
        text,
        at,
        &mut nodes[..words],
        &mut pool[..entries],
    )
}

fn next_case(rt: &impl Print, number: u64, text: &[u8], at: usize) -> Result<Option<Tried>, Fault>
    ensures { IfOk result (λ case. IfSome case (GetsOn (length text.now) (at + 1))) }
{
    let mut row = [0u64; ROW_WORDS];
    let Some(next) = next_case_row(text, at, &mut row, &largest())? else {
        return Ok(None);
    };
    Ok(Some(in_room(rt, number, &row, text, next)?))
}

// The stack must hold the text and the room for a case, some three megabytes together.
fn main(rt: HostRuntime) -> io::Result<()> {
    run(
        &rt,
        &mut rt.stdin(),
        b"replay_separate < FILE, with cases of decimal words as vectors/separate.py makes them",
        |number, text, at| next_case(&rt, number, text, at),
    )
}
