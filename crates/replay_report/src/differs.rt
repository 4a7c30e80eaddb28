// The parts of a line about a case that differs.
use std::io;

// How such a line begins: the case's number, and the refusal that was answered
pub fn told_refusal(rt: &impl Print, case: u64, number: u64, node: u64) -> io::Result<()> {
    print!(rt; "case {case} differs: answered {number} at {node}")
}

// A node's answer as three words
pub fn told_answer(rt: &impl Print, state: u64, width: u64, value: u64) -> io::Result<()> {
    print!(rt; ", state {state} width {width} value {value}")
}

pub fn told_work(rt: &impl Print, as_expected: bool) -> io::Result<()> {
    if !as_expected {
        print!(rt; ", work space not as expected")?;
    }
    Ok(())
}
