// An answer and a driven variable in plain words: what the texts of a comparison and of a separation share. No
// contract says what is written; the programs' outputs are recorded.
#![tactic(auto)]

use meaning::{Answer, Failure};
use std::io;
use std::io::Write;

// A variable with its bit, as a line begins; the caller ends it.
pub fn write_variable<W: Write>(out: &mut W, variable: u64, bit: u64) -> io::Result<()> {
    write!(out, "  v{variable} = {bit}")
}

// "An answer is a width with a value, or a failure", to the line's end
pub fn write_answer<W: Write>(out: &mut W, answer: Answer) -> io::Result<()> {
    match answer {
        Answer::Value { width, value } => { writeln!(out, "value {value}, width in bits {width}") }
        Answer::Failed(failure) => {
            let name = failure_name(failure);
            writeln!(out, "failure: {name}")
        }
    }
}

// "1 undriven, 2 DC, 3 register, 4 ARG"
fn failure_name(failure: Failure) -> &'static str {
    match failure {
        Failure::Undriven => "undriven",
        Failure::DontCare => "don't-care",
        Failure::Register => "register",
        Failure::Argument => "ARG",
    }
}
