// The operators on answers (document 01, "Answers of a node"; 000, `eval_rec`): one small function for each. An
// answer is a width with a value, or a failure; "an operand's answer is taken apart once: a value goes on, anything
// else leaves with its failure". The plain meaning of each is the definition of the same name in meaning's
// Rules/Answers (`and_of`, `nor_of`, ..), and its contract is an equation with it. Both evaluators, the plain one and
// the pass, call these and nothing else for a node's own answer; a Lut's row is gathered in their loops, so that a
// failing operand ends it at once. That every operator keeps answers within their width is in specs/Widths; how a
// loop over operands goes, in specs/Folds.
#![tactic(auto)]

ghost use Rattle.std.specs.Prelude.{◌≡◌, [], ◌∷◌, cond, ◌<◌, eqb};
ghost use Rattle.meaning.specs.declared.Answer.TheVariants.{Value};
ghost use Rattle.meaning.specs.Rules.Limits.{widest_bus};
ghost use Rattle.meaning.specs.Rules.Answers.{zeros_or, driven, and_of, nor_of, xor_of, not_of, row_bit, bus_of};
ghost use Rattle.operators.specs.Widths.{Held, Alike};

use bits::{bit_at, ones_of};
use meaning::{Answer, Failure};

// "Assignment bytes: 0, 1, 2 undriven"
pub const UNDRIVEN_BYTE: u8 = 2;

// "And: two values give the bitwise and. One failure: if the other is all zeros, zeros; else that failure. Two: the
// first."
pub fn and_of(x: Answer, y: Answer) -> Answer
    ensures { result ≡ and_of x y }
{
    match (x, y) {
        (Answer::Value { width, value: left }, Answer::Value { value: right, .. }) =>
            Answer::Value {
                width,
                value: left & right,
            },
        (Answer::Value { width, value }, Answer::Failed(second)) => zeros_or(width, value, second),
        (Answer::Failed(first), Answer::Value { width, value }) => zeros_or(width, value, first),
        (Answer::Failed(_), Answer::Failed(_)) => x,
    }
}

// A value of zeros stays, beside a failure; any other gives way to it.
fn zeros_or(width: u32, value: u64, failure: Failure) -> Answer
    ensures { result ≡ zeros_or width value failure }
{
    if value == 0 {
        Answer::Value { width, value: 0 }
    } else {
        Answer::Failed(failure)
    }
}

// Inner: "Nor is the complement of or, and all ones absorb to zeros": the And of the complements (`not_or` of bits),
// so what all zeros are to And, all ones are here. Both operands are of one width.
pub fn nor_of(x: Answer, y: Answer) -> Answer
    requires { Alike x y }
    ensures { result ≡ nor_of x y }
{
    let left = not_of(x);
    let right = not_of(y);
    and_of(left, right)
}

// Inner: the complement, as wide as the value. The width holds the value, and a word holds the width.
pub fn not_of(x: Answer) -> Answer
    requires { Held widest_bus x }
    ensures { result ≡ not_of x }
{
    let Answer::Value { width, value } = x else {
        return x;
    };
    Answer::Value {
        width,
        value: ones_of(width) - value,
    }
}

// "Xor, Not, Lut: the first failing operand in order"
pub fn xor_of(x: Answer, y: Answer) -> Answer
    ensures { result ≡ xor_of x y }
{
    let Answer::Value { width, value } = x else {
        return x;
    };
    let Answer::Value { value: other, .. } = y else {
        return y;
    };
    Answer::Value {
        width,
        value: value ^ other,
    }
}

// The child that a Mux answers as, by its selector's value: "s = 1 answers as a, s = 0 as b". The other is never
// asked for.
pub fn arm_of(selector: u64) -> usize
    ensures { result ≡ cond (eqb selector 0) 2 1 }
{
    if selector == 0 { 2 } else { 1 }
}

// Inner: a Lut's answer, the bit of its program at the row that its operands' bits are. How wide the row is does not
// matter.
pub fn row_bit(program: u64, row: u64) -> Answer
    requires { row < widest_bus }
    ensures { result ≡ row_bit program (Value 0 row) }
{
    Answer::Value {
        width: 1,
        value: bit_at(program, row),
    }
}

// Inner: one member more of a Bus: "the last failing member; otherwise its last member is bit 0". The member is a bit.
pub fn bus_step(bus: Answer, member: Answer) -> Answer
    requires held { Held 63 bus }
    requires held_2 { Held 1 member }
    ensures { result ≡ bus_of bus (member ∷ []) }
{
    let Answer::Value { value: bit, .. } = member else {
        return member;
    };
    let Answer::Value { width, value } = bus else {
        return bus;
    };
    Answer::Value {
        width: width + 1,
        value: value * 2 + bit,
    }
}

// A variable's answer by its assignment byte.
pub fn driven_by(byte: u8) -> Answer
    ensures { result ≡ driven byte }
{
    if byte < UNDRIVEN_BYTE {
        Answer::Value {
            width: 1,
            value: byte as u64,
        }
    } else {
        Answer::Failed(Failure::Undriven)
    }
}
