// A call that answers ten words (`result_words`: a comparison or a separation), in a replay: what a case expects of it,
// whether that is what was seen, and how the difference is told. The plain meaning is specs/Results.antt. Beside it
// `alike`, which a replay of another call uses too.
//
// Such a case begins with a row of sixteen decimal words:
//   0 to 4 what is lent and what is asked, as each replay says
//   5 and 6 the refusal that is expected, its number and its node
//   7 and 8 what is expected to be found, the verdict's number or the judgement's, and the assignment at which
//   9, 10 and 11 the first answer there: its state, width and value    12, 13 and 14 the second's
//   15 what is expected of the work space: 1 all zeros, 0 untouched
#![tactic(auto)]

ghost use Rattle.std.specs.Prelude.{◌≡◌, false, IfOk, OnErr};
ghost use Rattle.replay_results.specs.Alike as words;
ghost use Rattle.replay_results.specs.Results.{expected_of, expected_words, as_expected, differs};

use answer_words::Words;
use replay_report::{told_answer, told_refusal, told_work};
use std::io;

// Whether two rows of words are the same
pub fn alike(one: &[u64], other: &[u64]) -> bool
    ensures { result ≡ words.alike one.now other.now }
{
    one == other
}

pub const ROW_WORDS: usize = 16;

#[derive(Clone, Copy)]
pub struct Expected {
    pub number: u64,
    pub node: u64,
    pub found: u64,
    pub index: u64,
    pub first: Words,
    pub second: Words,
    pub cleared: bool,
}

pub fn expected_of(row: &[u64; ROW_WORDS]) -> Expected
    ensures { result ≡ expected_of row.now }
{
    Expected {
        number: row[5],
        node: row[6],
        found: row[7],
        index: row[8],
        first: Words {
            state: row[9],
            width: row[10],
            value: row[11],
        },
        second: Words {
            state: row[12],
            width: row[13],
            value: row[14],
        },
        cleared: row[15] == 1,
    }
}

// The words that a call answered, and whether it left the work space as expected. Says so where the case differs; the
// answer is whether it does. What was found is told by its name. An error comes only of that: where the case differs.
pub fn judged(
    rt: &impl Print,
    case: u64,
    name: &[u8],
    expected: Expected,
    given: &[u64; 10],
    work: bool,
) -> io::Result<bool>
    ensures value { IfOk result (λ answer. answer ≡ differs expected given.now work) }
    ensures err { OnErr result (as_expected expected given.now work ≡ false) }
{
    if is_expected(expected, given, work) {
        return Ok(false);
    }
    told(rt, case, name, given, work)?;
    Ok(true)
}

fn is_expected(expected: Expected, given: &[u64; 10], work: bool) -> bool
    ensures { result ≡ as_expected expected given.now work }
{
    let wanted = expected_words(expected);
    work && alike(given, &wanted)
}

fn expected_words(expected: Expected) -> [u64; 10]
    ensures { result ≡ expected_words expected }
{
    [
        expected.number,
        expected.node,
        expected.found,
        expected.index,
        expected.first.state,
        expected.first.width,
        expected.first.value,
        expected.second.state,
        expected.second.width,
        expected.second.value,
    ]
}

fn told(rt: &impl Print, case: u64, name: &[u8], given: &[u64; 10], work: bool) -> io::Result<()> {
    told_refusal(rt, case, given[0], given[1])?;
    print!(rt; ", ")?;
    rt.write_all(name)?;
    let found = given[2];
    let index = given[3];
    print!(rt; " {found} index {index}")?;
    told_answer(rt, given[4], given[5], given[6])?;
    told_answer(rt, given[7], given[8], given[9])?;
    told_work(rt, work)?;
    println!(rt;)
}
