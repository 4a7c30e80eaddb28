// A refusal as a line in plain words (document 01, "Numbers a call answers with"): what every program tells a user with. No
// contract says what is written; the program `refusal_lines` writes every line, and its output is recorded.
#![tactic(auto)]

use meaning::{Refusal, numbers};
use std::io;
use std::io::Write;

// "refused with 4 at node 3: .."; number 0 is no refusal, and its line is "done". Any number is
// taken, one that no call answers too.
pub fn write_refusal<W: Write>(out: &mut W, refusal: Refusal) -> io::Result<()> {
    if refusal.number == numbers::DONE {
        return out.write_all(b"done\n");
    }
    let number = refusal.number;
    write!(out, "refused with {number}")?;
    write_node(out, refusal)?;
    if let Some(meaning) = meaning_of(number) {
        out.write_all(meaning.as_bytes())?;
    }
    out.write_all(b"\n")
}

// "for 3 to 6, 8 and 14, the lowest faulty node, else 0": elsewhere 0 is no node, and is not written.
fn write_node<W: Write>(out: &mut W, refusal: Refusal) -> io::Result<()> {
    if names_node(refusal.number) {
        let node = refusal.node;
        write!(out, " at node {node}")?;
    }
    Ok(())
}

fn names_node(number: u32) -> bool {
    matches!(
        number,
        numbers::UNKNOWN_KIND
            | numbers::BAD_LAYOUT
            | numbers::BAD_CHILD
            | numbers::NOT_VERIFIED
            | numbers::NOT_EVALUABLE
            | numbers::WIDE_GATE
    )
}

// What is wrong with a list, numbers 1 to 8, or with what else a call was given, 9 to 14 and 19. 15 to 18 are kept free, and
// a number that is not in the table has no meaning to write. The colon stands with it, so that both go out in one write.
fn meaning_of(number: u32) -> Option<&'static str> {
    let meaning = match number {
        numbers::NOT_ALIGNED => ": the node words do not make whole nodes",
        numbers::OVER_LIMIT => ": the list has more nodes or pool entries than are allowed",
        numbers::UNKNOWN_KIND => ": there is no such kind",
        numbers::BAD_LAYOUT =>
            ": a field or child count breaks the layout, or its children run past the pool",
        numbers::BAD_CHILD => ": a child is not numbered below its node",
        numbers::NOT_VERIFIED => ": this node breaks a rule of verification",
        numbers::NO_ROOT => ": the list is empty, and a root is needed",
        numbers::NOT_EVALUABLE => ": the list verifies, but this node can not be evaluated",
        numbers::MANY_INPUTS => ": the trees differ, and the first has too many variables to try",
        numbers::LITTLE_WORK => ": too little work space was lent",
        numbers::OUT_OF_BOUNDS =>
            ": too many variables are asked for, or a variable or a mark is past them",
        numbers::BAD_ASSIGNMENT =>
            ": an assignment is too long or has a byte above 2, or a series is not whole rows",
        numbers::BAD_TABLE => ": a truth-table argument is out of its range",
        numbers::WIDE_GATE => ": this gate is not a bit, and can not become a lookup table",
        numbers::SHORT_OUTPUT =>
            ": the answer does not fit the output, or is a list over the limits",
        _ => return None,
    };
    Some(meaning)
}
