// A list past number 8 (document 01, "Evaluable"), as an evaluator reads it: the operands and the program of a node,
// and the answers of its leaves. What that list gives each node is in specs/Nodes; that an answer is as wide as the
// node's shape, in specs/AnswerWidths; what is asked at each kind, in specs/Operands. All functions here are inner:
// their callers have the list accepted (Claims/Column, `Sound`) and ask of nodes that have an answer (`Logic`:
// reachable, and no Program).
#![tactic(auto)]

ghost use Rattle.std.specs.Prelude.{◌≡◌, List, ◌<◌, get_or};
ghost use Rattle.meaning.specs.declared.Answer.{Answer};
ghost use Rattle.meaning.specs.Rules.Kinds.{kind_of, lut_word};
ghost use Rattle.meaning.specs.Rules.Trees.{node_count, kind_at, datum_at, children_at};
ghost use Rattle.meaning.specs.Rules.Answers.{step};
ghost use Rattle.meaning.specs.Rules.Assignments.{given};
ghost use Rattle.meaning.specs.Claims.Column.{Sound};
ghost use Rattle.accepted.specs.Nodes.{Logic, IsLeaf};
ghost use Rattle.accepted.specs.Operands.{Operand, Child};

use lists::children::children_of;
use meaning::kinds::Kind;
use meaning::{Answer, Failure};
use nodes::{datum_of, first_of, kind_of, wide};
use operators::{UNDRIVEN_BYTE, driven_by};

// Inner: the node that is operand i of node n. It is numbered below n and has an answer itself.
pub fn operand(nodes: &[u32], pool: &[u32], n: usize, i: usize) -> usize
    requires sound { Sound nodes.now pool.now }
    requires logic { Logic nodes.now pool.now n }
    requires operand { Operand nodes.now pool.now n i }
    ensures { Child nodes.now pool.now n i result }
{
    let children = children_of(nodes, pool, n);
    wide(children[i])
}

// Inner: the program of a Lut, which is its first child.
pub fn program_of(nodes: &[u32], pool: &[u32], n: usize) -> u64
    requires sound { Sound nodes.now pool.now }
    requires logic { Logic nodes.now pool.now n }
    requires n_value { kind_at nodes.now n ≡ lut_word }
    ensures { result ≡ datum_at nodes.now (get_or (children_at nodes.now pool.now n) 0 0) }
{
    let children = children_of(nodes, pool, n);
    datum_of(nodes, wide(children[0]))
}

// Inner: the answer of a Const, a DC or a Var. It has no operands, so xs is any list.
pub fn leaf_of(nodes: &[u32], bytes: &[u8], n: usize) -> Answer
    requires n_bound { n < node_count nodes.now }
    requires leaf { IsLeaf (kind_of (kind_at nodes.now n)) }
    ensures { (xs : List Answer) → result ≡ step (given bytes.now) (kind_of (kind_at nodes.now n)) (datum_at nodes.now n) xs }
{
    let first = first_of(nodes, n);
    match kind_of(nodes, n) {
        Kind::Const => Answer::Value {
            width: 1,
            value: first as u64,
        },
        Kind::DC => Answer::Failed(Failure::DontCare),
        _ => driven_by(byte_of(bytes, first)),
    }
}

// "a variable past the slice is undriven"
fn byte_of(bytes: &[u8], variable: usize) -> u8
    ensures { result ≡ given bytes.now variable }
{
    bytes.get(variable).copied().unwrap_or(UNDRIVEN_BYTE)
}
