// The answers of document 01 as types, and its limits, numbers and kinds as constants; nothing else. What each of them
// means is defined in specs/Rules, and the code that gives them stands in the crates above this one.
#![tactic(auto)]

pub mod kinds;
pub mod limits;
pub mod numbers;

// ---- "Answers of a node": "a width with a value, or a failure: 1 undriven, 2 DC, 3 register, 4 ARG"
#[derive(Clone, Copy, PartialEq, Eq)]
pub enum Failure {
    Undriven,
    DontCare,
    Register,
    Argument,
}

#[derive(Clone, Copy, PartialEq, Eq)]
pub enum Answer {
    Value { width: u32, value: u64 },
    Failed(Failure),
}

// ---- check.rs: the three verdicts, and what writing a verdict's name may fail with
#[derive(Clone, Copy, PartialEq, Eq)]
pub enum Check {
    Equiv,
    NotEquiv,
    Inconclusive,
}

// The lent slice is too short for the verdict's name: number 19
#[derive(Clone, Copy, PartialEq, Eq)]
pub struct TooShort;

// ---- "Comparison and separation"
#[derive(Clone, Copy, PartialEq, Eq)]
pub enum Judgement {
    Separate,
    Crossing,
}

// "A refusal gives its number and, for 3 to 6, 8 and 14, the lowest faulty node, else 0": what a call answers as an Err
#[derive(Clone, Copy, PartialEq, Eq)]
pub struct Refusal {
    pub number: u32,
    pub node: u32,
}

// What a call answers that is not refused: an evaluation the root's answer (the node by node pairs are written into lent
// space), and the others these. "The result carries verdict, i and both answers"; "for Equiv the rest is zero"
#[derive(Clone, Copy, PartialEq, Eq)]
pub struct Comparison {
    pub verdict: Check,
    pub index: u64,
    pub first: Answer,
    pub second: Answer,
}

// "Crossing carries i and the answers at i and at i with its run bits cleared; for Separate the rest is zero"
#[derive(Clone, Copy, PartialEq, Eq)]
pub struct Separation {
    pub judgement: Judgement,
    pub index: u64,
    pub run: Answer,
    pub cleared: Answer,
}

// ---- "Canonical list": how many words of each output slice the answer takes
#[derive(Clone, Copy, PartialEq, Eq)]
pub struct Canonical {
    pub nodes: u32,
    pub pool: u32,
}

// ---- "Truth-table routines"

// An argument is out of its range: number 13
#[derive(Clone, Copy, PartialEq, Eq)]
pub struct OutOfRange;

// `to_bitvec`: a program's bits as one word, so many wide
#[derive(Clone, Copy, PartialEq, Eq)]
pub struct BitVector {
    pub width: u64,
    pub value: u64,
}

// `cofactors_in_msb`
#[derive(Clone, Copy, PartialEq, Eq)]
pub struct Cofactors {
    pub high: u64,
    pub low: u64,
}
