// Replays cases of the canonicaliser from standard input against the crate `canonicaliser`, and says how many there
// were and which of them differ, be it in the answer, in the list written, in the outputs behind it, in what is left
// of the work space or in the verdict of a comparison of that list with the given one. The cases are made by
// vectors/canonicalise.py, which has the answers from a model of document 01.
#![tactic(auto)]

mod cases;
mod judgement;
mod verdicts;
mod written;

ghost use Rattle.std.specs.Prelude.{◌+◌, ◌≤◌, length, IfOk, IfSome};
ghost use Rattle.replay_canonicalise.specs.Cases.{Fits};
ghost use Rattle.replay_canonicalise.specs.Outputs.{Markable};
ghost use Rattle.replay_report.specs.Turns.{GetsOn};

use canonicaliser::canonicalize_expr;
use case_rows::next_case_row;
use cases::{ROW_WORDS, expected_of, largest};
use decimals::Bad;
use judgement::{Expected, Listed, Seen, judged};
use lent_words::{fill, is_left};
use list_room::{node_room, pool_room, work_room};
use list_words::next_list;
use replay_report::{Fault, Tried, run};
use std::io;
use verdicts::verdict_of;
use written::next_written;

// ---- one case

// "output past the answer is unchanged": all of both outputs where nothing is to be written
fn is_left_behind(listed: Listed, out_nodes: &[u32], out_pool: &[u32]) -> bool
    requires { Markable out_nodes.now out_pool.now }
{
    let nodes = is_left(out_nodes, listed.words, false);
    let pool = is_left(out_pool, listed.entries, false);
    nodes && pool
}

fn fill_all(work: &mut [u64], out_nodes: &mut [u32], out_pool: &mut [u32])
    requires { Markable out_nodes.old out_pool.old }
{
    fill(work);
    fill(out_nodes);
    fill(out_pool);
}

// Calls with lent space that is filled, and looks at what is left of it and at what was written.
#[tactic(auto, using(crate::specs::Verdicts::stands))]
fn called(
    expected: Expected,
    nodes: &[u32],
    pool: &[u32],
    work: &mut [u64],
    out_nodes: &mut [u32],
    out_pool: &mut [u32],
) -> Seen
    requires { Markable out_nodes.old out_pool.old }
{
    fill_all(work, out_nodes, out_pool);
    let canonical = canonicalize_expr(nodes, pool, work, out_nodes, out_pool);
    Seen {
        canonical,
        verdict: verdict_of(
            expected.verdict,
            nodes,
            pool,
            canonical,
            out_nodes,
            out_pool,
        ),
        work: is_left(work, 0, expected.cleared),
        behind: is_left_behind(expected.listed, out_nodes, out_pool),
    }
}

// Reads the list that is expected, and judges the case. One whose list has no place in its output is a fault of the
// text.
fn compared(
    rt: &impl Print,
    number: u64,
    expected: Expected,
    text: &[u8],
    at: usize,
    seen: Seen,
    out_nodes: &[u32],
    out_pool: &[u32],
) -> Result<Tried, Fault>
    requires { at ≤ length text.now }
    ensures { IfOk result (GetsOn (length text.now) at) }
{
    let words = expected.listed.words;
    let entries = expected.listed.entries;
    if words > out_nodes.len() || entries > out_pool.len() {
        return Err(Fault::from(Bad { offset: at }));
    }
    let (next, list) = next_written(text, at, &out_nodes[..words], &out_pool[..entries])?;
    Ok(Tried {
        next,
        differs: judged(rt, number, expected, seen, list)?,
    })
}

fn tried_in(
    rt: &impl Print,
    number: u64,
    expected: Expected,
    text: &[u8],
    at: usize,
    nodes: &[u32],
    pool: &[u32],
    work: &mut [u64],
    out_nodes: &mut [u32],
    out_pool: &mut [u32],
) -> Result<Tried, Fault>
    requires at_in_bounds { at ≤ length text.now }
    requires markable { Markable out_nodes.old out_pool.old }
    ensures { IfOk result (GetsOn (length text.now) at) }
{
    let seen = called(expected, nodes, pool, work, out_nodes, out_pool);
    compared(rt, number, expected, text, at, seen, out_nodes, out_pool)
}

// Work space and outputs as long as the case asks. Each case has new room, so that none finds what another left.
fn with_space(
    rt: &impl Print,
    number: u64,
    row: &[u64; ROW_WORDS],
    text: &[u8],
    at: usize,
    nodes: &[u32],
    pool: &[u32],
) -> Result<Tried, Fault>
    requires at_in_bounds { at ≤ length text.now }
    requires fits { Fits row.now }
    ensures { IfOk result (GetsOn (length text.now) at) }
{
    let mut work = work_room();
    let mut out_nodes = node_room();
    let mut out_pool = pool_room();
    let asked = row[2] as usize;
    let words = row[3] as usize;
    let entries = row[4] as usize;
    tried_in(
        rt,
        number,
        expected_of(row),
        text,
        at,
        nodes,
        pool,
        &mut work[..asked],
        &mut out_nodes[..words],
        &mut out_pool[..entries],
    )
}

// Reads the case's list into what is lent for it, and tries the case.
fn tried(
    rt: &impl Print,
    number: u64,
    row: &[u64; ROW_WORDS],
    text: &[u8],
    at: usize,
    nodes: &mut [u32],
    pool: &mut [u32],
) -> Result<Tried, Fault>
    requires at_in_bounds { at ≤ length text.now }
    requires fits { Fits row.now }
    ensures { IfOk result (GetsOn (length text.now) at) }
{
    let next = next_list(text, at, nodes, pool)?;
    with_space(rt, number, row, text, next, nodes, pool)
}

// Node words and pool entries as many as the case has.
fn in_room(
    rt: &impl Print,
    number: u64,
    row: &[u64; ROW_WORDS],
    text: &[u8],
    at: usize,
) -> Result<Tried, Fault>
    requires at_in_bounds { at ≤ length text.now }
    requires fits { Fits row.now }
    ensures { IfOk result (GetsOn (length text.now) at) }
{
    let mut nodes = node_room();
    let mut pool = pool_room();
    let words = row[0] as usize;
    let entries = row[1] as usize;
    tried(
        rt,
        number,
        row,
        text,
        at,
        &mut nodes[..words],
        &mut pool[..entries],
    )
}

fn next_case(rt: &impl Print, number: u64, text: &[u8], at: usize) -> Result<Option<Tried>, Fault>
    ensures { IfOk result (λ case. IfSome case (GetsOn (length text.now) (at + 1))) }
{
    let mut row = [0u64; ROW_WORDS];
    let Some(next) = next_case_row(text, at, &mut row, &largest())? else {
        return Ok(None);
    };
    Ok(Some(in_room(rt, number, &row, text, next)?))
}

// The stack must hold the text and the room for a case, some five megabytes together.
fn main(rt: HostRuntime) -> io::Result<()> {
    run(
        &rt,
        &mut rt.stdin(),
        b"replay_canonicalise < FILE, with cases of decimal words as vectors/canonicalise.py makes them",
        |number, text, at| next_case(&rt, number, text, at),
    )
}
