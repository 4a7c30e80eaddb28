// One Lut is folded "until no rule applies" (000, `fold_lut`; document 01, "Canonical list", rules 1 to 3). Its
// operands are given by their homes, the rows of the work space that hold their normal forms (form_rows). The plain
// meaning is meaning's Rules/Folding, `fold`; what the answer stands for is specs/Folded, `folded_tree`. A caller lends
// the list of operands, from which those are taken that a rule drops. Nothing here is written in a row.
#![tactic(auto)]

mod dropping;

ghost use Rattle.std.specs.Prelude.{◌≡◌, map, ℕ, ◌≤◌, ◌<◌, length};
ghost use Rattle.meaning.specs.Rules.Limits.{most_operands};
ghost use Rattle.meaning.specs.Rules.Trees.{Tree};
ghost use Rattle.meaning.specs.Rules.Folding.{fold};
ghost use Rattle.folding.specs.Folded.{Each, Readable, Tells, folded_tree, Left, folded_one};

use dropping::{Dropped, drop_at, next_rule};
use form_rows::{CONSTANT, datum_in, kind_in};

// What a Lut is when no rule applies: a constant, an operand, or a Lut over the first `count` of the operands' list.
#[derive(Clone, Copy)]
pub enum Folded {
    Constant(u64),
    Operand(u64),
    Lut { program: u64, count: usize },
}

// Inner: the Lut of this program over these operands, folded. At most six operands; of none the program is a bit.
pub fn fold_lut(program: u64, operands: &mut [u64], work: &[u64]) -> Folded
    requires operands_len_bound { length operands.old ≤ most_operands }
    requires each { Each (Readable work.now) operands.old }
    requires program_bound { length operands.old ≡ 0 → program < 2 }
    ensures by_index { (tree : ℕ → Tree) → Each (Tells work.now tree) operands.old → fold (length operands.old) program (map tree operands.old) ≡ folded_tree tree result operands.new }
    ensures left { Left operands.old result operands.new }
{
    let mut left = program;
    let mut count = operands.len();
    while count > 1 {
        let Some(Dropped { at, program }) = next_rule(left, &operands[..count], work) else {
            return Folded::Lut {
                program: left,
                count,
            };
        };
        drop_at(operands, count, at);
        left = program;
        count -= 1;
    }
    if count == 0 {
        return Folded::Constant(left);
    }
    fold_one(left, operands[0], work)
}

// Rule 2, "k = 1: program 0 false, 3 true, 2 the operand; 1 over a constant, its negation; otherwise stay".
#[tactic(auto, unfolding(crate::specs::Folded::folded_one))]
fn fold_one(program: u64, operand: u64, work: &[u64]) -> Folded
    requires { Readable work.now operand }
    ensures { result ≡ folded_one work.now program operand }
{
    match program {
        0 => Folded::Constant(0),
        3 => Folded::Constant(1),
        2 => Folded::Operand(operand),
        _ if kind_in(work, operand as usize) == CONSTANT => {
            Folded::Constant(1 - datum_in(work, operand as usize))
        }
        _ => Folded::Lut { program, count: 1 },
    }
}
