// What a case expects of the canonicaliser, whether that is what was seen, and how the difference is told. The plain
// meaning is specs/Judgement.antt.
ghost use Rattle.std.specs.Prelude.{◌≡◌, ◌≤◌, false, IfOk, OnErr};
ghost use Rattle.replay_canonicalise.specs.Judgement.{expected_words, seen_words, as_expected, differs};

use canonical_words::four_words;
use meaning::{Canonical, Refusal};
use replay_report::{told_refusal, told_work};
use replay_results::alike;
use std::io;

// How much of a canonical list stands in the text
#[derive(Clone, Copy)]
pub(crate) struct Listed {
    pub(crate) words: usize,
    pub(crate) entries: usize,
}

#[derive(Clone, Copy)]
pub(crate) struct Expected {
    pub(crate) number: u64,
    pub(crate) node: u64,
    pub(crate) words: u64,
    pub(crate) entries: u64,
    pub(crate) verdict: u64,
    pub(crate) cleared: bool,
    pub(crate) listed: Listed,
}

// What is seen of a call: what it answers, the verdict on the list that it wrote, whether the work space is as
// expected, and whether both outputs are untouched behind the list
#[derive(Clone, Copy)]
pub(crate) struct Seen {
    pub(crate) canonical: Result<Canonical, Refusal>,
    pub(crate) verdict: u64,
    pub(crate) work: bool,
    pub(crate) behind: bool,
}

// Says so where the case differs, be it in what was seen or in the list that was written; the answer is whether
// it does. An error comes only of that: where the case differs.
pub(crate) fn judged(
    rt: &impl Print,
    case: u64,
    expected: Expected,
    seen: Seen,
    list: bool,
) -> io::Result<bool>
    ensures value { IfOk result (λ answer. answer ≡ differs expected seen list) }
    ensures err { OnErr result (as_expected expected seen list ≡ false) }
{
    if is_expected(expected, seen, list) {
        return Ok(false);
    }
    told(rt, case, seen, list)?;
    Ok(true)
}

fn is_expected(expected: Expected, seen: Seen, list: bool) -> bool
    ensures { result ≡ as_expected expected seen list }
{
    seen.work && seen.behind && list && alike(&seen_words(seen), &expected_words(expected))
}

fn seen_words(seen: Seen) -> [u64; 5]
    ensures { result ≡ seen_words seen }
{
    let words = four_words(seen.canonical);
    [words[0], words[1], words[2], words[3], seen.verdict]
}

fn expected_words(expected: Expected) -> [u64; 5]
    ensures { result ≡ expected_words expected }
{
    [
        expected.number,
        expected.node,
        expected.words,
        expected.entries,
        expected.verdict,
    ]
}

fn told(rt: &impl Print, case: u64, seen: Seen, list: bool) -> io::Result<()> {
    let words = seen_words(seen);
    told_refusal(rt, case, words[0], words[1])?;
    told_counts(rt, words[2], words[3], words[4])?;
    told_work(rt, seen.work)?;
    if !list {
        print!(rt; ", list not as expected")?;
    }
    if !seen.behind {
        print!(rt; ", output touched behind it")?;
    }
    println!(rt;)
}

fn told_counts(rt: &impl Print, words: u64, entries: u64, verdict: u64) -> io::Result<()> {
    print!(rt; ", node words {words} pool entries {entries} verdict {verdict}")
}
