// The plain evaluator (document 01: "A plain evaluator that descends from a node to its lower-numbered children is
// kept beside it and proved equal"; 000, `eval_rec`). The plain meaning is meaning's Rules/Answers, `answer` of the
// tree at a node, and the contract of `eval_rec` is that equation. The node number falls at each call. It walks a
// shared graph as a tree, so it is kept as the reference and is no entry point: a user calls `evaluator::eval`, whose
// pass (the crate `pass`) writes the same answers (specs/Same there).
#![tactic(auto)]

ghost use Rattle.std.specs.Prelude.{◌≡◌};
ghost use Rattle.meaning.specs.declared.kinds.Kind.TheVariants.{Mux, Lut, Bus};
ghost use Rattle.meaning.specs.Rules.Kinds.{kind_of};
ghost use Rattle.meaning.specs.Rules.Trees.{kind_at, tree_of};
ghost use Rattle.meaning.specs.Rules.Answers.{answer};
ghost use Rattle.meaning.specs.Rules.Assignments.{given};
ghost use Rattle.meaning.specs.Claims.Column.{Sound};
ghost use Rattle.accepted.specs.Nodes.{Logic};
ghost use Rattle.accepted.specs.Operands.{TwoOperands};

use accepted::{leaf_of, operand, program_of};
use meaning::kinds::Kind;
use meaning::{Answer, Failure};
use nodes::{count_of, kind_of};
use operators::{and_of, arm_of, bus_step, nor_of, not_of, row_bit, xor_of};

// Inner: the answer of node n, a reachable one that is no Program, of a list past number 8.
#[cycle(eval)]
pub fn eval_rec(nodes: &[u32], pool: &[u32], bytes: &[u8], n: usize) -> Answer
    requires sound { Sound nodes.now pool.now }
    requires logic { Logic nodes.now pool.now n }
    ensures { result ≡ answer (given bytes.now) (tree_of nodes.now pool.now n) }
{
    match kind_of(nodes, n) {
        Kind::Const | Kind::DC | Kind::Var => leaf_of(nodes, bytes, n),
        Kind::Nor | Kind::And | Kind::Xor => eval_gate(nodes, pool, bytes, n),
        Kind::Mux => eval_mux(nodes, pool, bytes, n),
        Kind::Not => not_of(eval_rec(nodes, pool, bytes, operand(nodes, pool, n, 0))),
        Kind::Lut => eval_lut(nodes, pool, bytes, n),
        Kind::Bus => eval_bus(nodes, pool, bytes, n),
        Kind::Reg => Answer::Failed(Failure::Register),
        Kind::Arg => Answer::Failed(Failure::Argument),
        Kind::Cycle => eval_rec(nodes, pool, bytes, operand(nodes, pool, n, 0)),
        Kind::Program | Kind::Unknown => unreachable!(),
    }
}

// Nor, And and Xor: both operands are looked at, then the operator decides.
#[cycle(eval)]
fn eval_gate(nodes: &[u32], pool: &[u32], bytes: &[u8], n: usize) -> Answer
    requires sound { Sound nodes.now pool.now }
    requires logic { Logic nodes.now pool.now n }
    requires two_operands { TwoOperands (kind_of (kind_at nodes.now n)) }
    ensures { result ≡ answer (given bytes.now) (tree_of nodes.now pool.now n) }
{
    let x = eval_rec(nodes, pool, bytes, operand(nodes, pool, n, 0));
    let y = eval_rec(nodes, pool, bytes, operand(nodes, pool, n, 1));
    match kind_of(nodes, n) {
        Kind::Nor => nor_of(x, y),
        Kind::And => and_of(x, y),
        _ => xor_of(x, y),
    }
}

// "Mux: the selector's failure; else s = 1 answers as a, s = 0 as b, and the other arm is not looked at"
#[cycle(eval)]
fn eval_mux(nodes: &[u32], pool: &[u32], bytes: &[u8], n: usize) -> Answer
    requires sound { Sound nodes.now pool.now }
    requires logic { Logic nodes.now pool.now n }
    requires n_value { kind_of (kind_at nodes.now n) ≡ Mux }
    ensures { result ≡ answer (given bytes.now) (tree_of nodes.now pool.now n) }
{
    let selector = eval_rec(nodes, pool, bytes, operand(nodes, pool, n, 0));
    let Answer::Value { value, .. } = selector else {
        return selector;
    };
    eval_rec(nodes, pool, bytes, operand(nodes, pool, n, arm_of(value)))
}

// "Lut: the first operand is the most significant bit of the row number"; the first failing operand ends it.
// Operands are read by their places here and below: `operand` says of a place that there is one, and what it has.
#[cycle(eval)]
fn eval_lut(nodes: &[u32], pool: &[u32], bytes: &[u8], n: usize) -> Answer
    requires sound { Sound nodes.now pool.now }
    requires logic { Logic nodes.now pool.now n }
    requires n_value { kind_of (kind_at nodes.now n) ≡ Lut }
    ensures { result ≡ answer (given bytes.now) (tree_of nodes.now pool.now n) }
{
    let count = count_of(nodes, n);
    let mut row: u64 = 0;
    for i in 1..count {
        let x = eval_rec(nodes, pool, bytes, operand(nodes, pool, n, i));
        let Answer::Value { value: bit, .. } = x else {
            return x;
        };
        row = row * 2 + bit;
    }
    row_bit(program_of(nodes, pool, n), row)
}

// "Bus: the last failing member; otherwise its last member is bit 0"
#[cycle(eval)]
fn eval_bus(nodes: &[u32], pool: &[u32], bytes: &[u8], n: usize) -> Answer
    requires sound { Sound nodes.now pool.now }
    requires logic { Logic nodes.now pool.now n }
    requires n_value { kind_of (kind_at nodes.now n) ≡ Bus }
    ensures { result ≡ answer (given bytes.now) (tree_of nodes.now pool.now n) }
{
    let count = count_of(nodes, n);
    let mut bus = Answer::Value { width: 0, value: 0 };
    for i in 0..count {
        let x = eval_rec(nodes, pool, bytes, operand(nodes, pool, n, i));
        bus = bus_step(bus, x);
    }
    bus
}
