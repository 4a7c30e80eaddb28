// Replays cases of the evaluator from standard input against the crate `evaluator`, and says how many there were and
// which of them differ, be it in the answer, in the pairs written, in the output behind them or in what is left of the
// work space. The cases are made by vectors/evaluate.py, which has the answers from a model of document 01.
#![tactic(auto)]

mod cases;
mod inputs;
mod pairs;
mod room;

ghost use Rattle.std.specs.Prelude.{◌+◌, ◌≤◌, length, IfOk, IfSome};
ghost use Rattle.replay_evaluate.specs.Cases.{Fits};
ghost use Rattle.replay_report.specs.Turns.{GetsOn};

use answer_words::{Words, same, words_of};
use case_rows::next_case_row;
use cases::{Expected, ROW_WORDS, expected_of, largest};
use comparisons::blank;
use decimals::Bad;
use evaluator::eval;
use inputs::next_inputs;
use lent_words::{fill, is_left};
use list_room::{node_room, pool_room, work_room};
use pairs::next_pairs;
use replay_report::{Fault, Tried, run, told_answer, told_refusal, told_work};
use result_words::two_words;
use room::{BYTE_ROOM, OUT_ROOM};
use std::io;

// What is seen of a call: its refusal's number and node, the root's answer, whether the work space is as expected, and whether the output
// behind the pairs is untouched
#[derive(Clone, Copy)]
struct Seen {
    refusal: [u64; 2],
    root: Words,
    work: bool,
    behind: bool,
}

// ---- one case

fn told(rt: &impl Print, number: u64, seen: Seen, pairs: bool) -> io::Result<()> {
    told_refusal(rt, number, seen.refusal[0], seen.refusal[1])?;
    told_answer(rt, seen.root.state, seen.root.width, seen.root.value)?;
    told_work(rt, seen.work)?;
    if !pairs {
        print!(rt; ", pairs not as expected")?;
    }
    if !seen.behind {
        print!(rt; ", output touched behind them")?;
    }
    println!(rt;)
}

// Says so where the case differs, be it in what was seen or in the pairs; the answer is whether it does.
fn judged(
    rt: &impl Print,
    number: u64,
    expected: Expected,
    seen: Seen,
    pairs: bool,
) -> io::Result<bool> {
    if seen.refusal == [expected.number, expected.node]
        && same(seen.root, expected.root)
        && seen.work
        && seen.behind
        && pairs
    {
        return Ok(false);
    }
    told(rt, number, seen, pairs)?;
    Ok(true)
}

// Reads the pairs that are expected, and judges the case. One whose pairs have no place in its output is a fault of the
// text.
fn compared(
    rt: &impl Print,
    number: u64,
    expected: Expected,
    text: &[u8],
    at: usize,
    seen: Seen,
    out: &[u64],
) -> Result<Tried, Fault>
    requires { at ≤ length text.now }
    ensures { IfOk result (GetsOn (length text.now) at) }
{
    let count = expected.pairs;
    if count > out.len() {
        return Err(Fault::from(Bad { offset: at }));
    }
    let (next, pairs) = next_pairs(text, at, &out[..count])?;
    Ok(Tried {
        next,
        differs: judged(rt, number, expected, seen, pairs)?,
    })
}

// Calls with lent space that is filled, and looks at what is left of it.
fn called(
    rt: &impl Print,
    number: u64,
    expected: Expected,
    text: &[u8],
    at: usize,
    nodes: &[u32],
    pool: &[u32],
    bytes: &[u8],
    work: &mut [u64],
    out: &mut [u64],
) -> Result<Tried, Fault>
    requires { at ≤ length text.now }
    ensures { IfOk result (GetsOn (length text.now) at) }
{
    fill(work);
    fill(out);
    let given = eval(nodes, pool, bytes, work, out);
    let seen = Seen {
        refusal: two_words(given),
        root: words_of(given.unwrap_or(blank())),
        work: is_left(work, 0, expected.cleared),
        behind: is_left(out, expected.pairs, false),
    };
    compared(rt, number, expected, text, at, seen, out)
}

// Work space and output as long as the case asks. Each case has new room, so that none finds what another left.
fn with_space(
    rt: &impl Print,
    number: u64,
    row: &[u64; ROW_WORDS],
    text: &[u8],
    at: usize,
    nodes: &[u32],
    pool: &[u32],
    bytes: &[u8],
) -> Result<Tried, Fault>
    requires at_in_bounds { at ≤ length text.now }
    requires fits { Fits row.now }
    ensures { IfOk result (GetsOn (length text.now) at) }
{
    let mut work = work_room();
    let mut out = list_room::room::<u64, OUT_ROOM>(0);
    let words = row[3] as usize;
    let places = row[4] as usize;
    called(
        rt,
        number,
        expected_of(row),
        text,
        at,
        nodes,
        pool,
        bytes,
        &mut work[..words],
        &mut out[..places],
    )
}

// Reads the case's list and bytes into what is lent for them, and tries the case.
fn tried(
    rt: &impl Print,
    number: u64,
    row: &[u64; ROW_WORDS],
    text: &[u8],
    at: usize,
    nodes: &mut [u32],
    pool: &mut [u32],
    bytes: &mut [u8],
) -> Result<Tried, Fault>
    requires at_in_bounds { at ≤ length text.now }
    requires fits { Fits row.now }
    ensures { IfOk result (GetsOn (length text.now) at) }
{
    let next = next_inputs(text, at, nodes, pool, bytes)?;
    with_space(rt, number, row, text, next, nodes, pool, bytes)
}

// Node words, pool entries and bytes as many as the case has.
fn in_room(
    rt: &impl Print,
    number: u64,
    row: &[u64; ROW_WORDS],
    text: &[u8],
    at: usize,
) -> Result<Tried, Fault>
    requires at_in_bounds { at ≤ length text.now }
    requires fits { Fits row.now }
    ensures { IfOk result (GetsOn (length text.now) at) }
{
    let mut nodes = node_room();
    let mut pool = pool_room();
    let mut bytes = list_room::room::<u8, BYTE_ROOM>(0);
    let words = row[0] as usize;
    let entries = row[1] as usize;
    let count = row[2] as usize;
    tried(
        rt,
        number,
        row,
        text,
        at,
        &mut nodes[..words],
        &mut pool[..entries],
        &mut bytes[..count],
    )
}

fn next_case(rt: &impl Print, number: u64, text: &[u8], at: usize) -> Result<Option<Tried>, Fault>
    ensures { IfOk result (λ case. IfSome case (GetsOn (length text.now) (at + 1))) }
{
    let mut row = [0u64; ROW_WORDS];
    let Some(next) = next_case_row(text, at, &mut row, &largest())? else {
        return Ok(None);
    };
    Ok(Some(in_room(rt, number, &row, text, next)?))
}

// The stack must hold the text and the room for a case, some three megabytes together.
fn main(rt: HostRuntime) -> io::Result<()> {
    run(
        &rt,
        &mut rt.stdin(),
        b"replay_evaluate < FILE, with cases of decimal words as vectors/evaluate.py makes them",
        |number, text, at| next_case(&rt, number, text, at),
    )
}
