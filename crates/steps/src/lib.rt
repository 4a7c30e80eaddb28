// A node's answer from its children's rows, as the pass takes it: the arms of the plain evaluator, with a row in
// place of each descent. The plain meaning is meaning's Rules/Answers, `answer` of the tree at the node; the pass
// calls `answer_of` once for each node, in number order, and its contract is that equation.
#![tactic(auto)]

ghost use Rattle.std.specs.Prelude.{◌≡◌};
ghost use Rattle.meaning.specs.declared.kinds.Kind.TheVariants.{Mux, Lut, Bus};
ghost use Rattle.meaning.specs.Rules.Kinds.{kind_of};
ghost use Rattle.meaning.specs.Rules.Trees.{kind_at, tree_of};
ghost use Rattle.meaning.specs.Rules.Answers.{answer, nth};
ghost use Rattle.meaning.specs.Rules.Assignments.{given};
ghost use Rattle.accepted.specs.Nodes.{Logic, answers_at};
ghost use Rattle.accepted.specs.Operands.{Operand};
ghost use Rattle.rows.specs.Rows.{Filled};

use accepted::{leaf_of, operand, program_of};
use meaning::kinds::Kind;
use meaning::{Answer, Failure};
use nodes::{count_of, kind_of};
use operators::{and_of, arm_of, bus_step, nor_of, not_of, row_bit, xor_of};
use rows::answer_at;

// Inner: the answer of node n, a reachable one that is no Program, once the pairs below it are written. Nor, And and
// Xor have an arm each: with the operands read in one place and the kind asked for again behind them, as the plain
// evaluator does it, a gate took 7.7 ns instead of 4.4.
pub fn answer_of(
    nodes: &[u32],
    pool: &[u32],
    bytes: &[u8],
    base: usize,
    work: &[u64],
    n: usize,
) -> Answer
    requires filled { Filled nodes.now pool.now (given bytes.now) base work.now n }
    requires logic { Logic nodes.now pool.now n }
    ensures { result ≡ answer (given bytes.now) (tree_of nodes.now pool.now n) }
{
    match kind_of(nodes, n) {
        Kind::Const | Kind::DC | Kind::Var => leaf_of(nodes, bytes, n),
        Kind::Nor => {
            let x = operand_answer(nodes, pool, bytes, base, work, n, 0);
            let y = operand_answer(nodes, pool, bytes, base, work, n, 1);
            nor_of(x, y)
        }
        Kind::Mux => mux_at(nodes, pool, bytes, base, work, n),
        Kind::And => {
            let x = operand_answer(nodes, pool, bytes, base, work, n, 0);
            let y = operand_answer(nodes, pool, bytes, base, work, n, 1);
            and_of(x, y)
        }
        Kind::Xor => {
            let x = operand_answer(nodes, pool, bytes, base, work, n, 0);
            let y = operand_answer(nodes, pool, bytes, base, work, n, 1);
            xor_of(x, y)
        }
        Kind::Not => not_of(operand_answer(nodes, pool, bytes, base, work, n, 0)),
        Kind::Lut => lut_at(nodes, pool, bytes, base, work, n),
        Kind::Bus => bus_at(nodes, pool, bytes, base, work, n),
        Kind::Reg => Answer::Failed(Failure::Register),
        Kind::Arg => Answer::Failed(Failure::Argument),
        Kind::Cycle => operand_answer(nodes, pool, bytes, base, work, n, 0),
        Kind::Program | Kind::Unknown => unreachable!(),
    }
}

// The answer of operand i of node n, from its row.
fn operand_answer(
    nodes: &[u32],
    pool: &[u32],
    bytes: &[u8],
    base: usize,
    work: &[u64],
    n: usize,
    i: usize,
) -> Answer
    requires filled { Filled nodes.now pool.now (given bytes.now) base work.now n }
    requires logic { Logic nodes.now pool.now n }
    requires operand { Operand nodes.now pool.now n i }
    ensures { result ≡ nth (answers_at nodes.now pool.now (given bytes.now) n) i }
{
    answer_at(work, base + operand(nodes, pool, n, i))
}

// "Mux: the selector's failure; else s = 1 answers as a, s = 0 as b, and the other arm is not looked at"
fn mux_at(nodes: &[u32], pool: &[u32], bytes: &[u8], base: usize, work: &[u64], n: usize) -> Answer
    requires filled { Filled nodes.now pool.now (given bytes.now) base work.now n }
    requires logic { Logic nodes.now pool.now n }
    requires n_value { kind_of (kind_at nodes.now n) ≡ Mux }
    ensures { result ≡ answer (given bytes.now) (tree_of nodes.now pool.now n) }
{
    let selector = operand_answer(nodes, pool, bytes, base, work, n, 0);
    let Answer::Value { value, .. } = selector else {
        return selector;
    };
    operand_answer(nodes, pool, bytes, base, work, n, arm_of(value))
}

// "Lut: the first operand is the most significant bit of the row number"; the first failing operand ends it.
// Operands are read by their places here and below: `operand_answer` says of a place what stands there.
fn lut_at(nodes: &[u32], pool: &[u32], bytes: &[u8], base: usize, work: &[u64], n: usize) -> Answer
    requires filled { Filled nodes.now pool.now (given bytes.now) base work.now n }
    requires logic { Logic nodes.now pool.now n }
    requires n_value { kind_of (kind_at nodes.now n) ≡ Lut }
    ensures { result ≡ answer (given bytes.now) (tree_of nodes.now pool.now n) }
{
    let count = count_of(nodes, n);
    let mut row: u64 = 0;
    for i in 1..count {
        let x = operand_answer(nodes, pool, bytes, base, work, n, i);
        let Answer::Value { value: bit, .. } = x else {
            return x;
        };
        row = row * 2 + bit;
    }
    row_bit(program_of(nodes, pool, n), row)
}

// "Bus: the last failing member; otherwise its last member is bit 0"
fn bus_at(nodes: &[u32], pool: &[u32], bytes: &[u8], base: usize, work: &[u64], n: usize) -> Answer
    requires filled { Filled nodes.now pool.now (given bytes.now) base work.now n }
    requires logic { Logic nodes.now pool.now n }
    requires n_value { kind_of (kind_at nodes.now n) ≡ Bus }
    ensures { result ≡ answer (given bytes.now) (tree_of nodes.now pool.now n) }
{
    let count = count_of(nodes, n);
    let mut bus = Answer::Value { width: 0, value: 0 };
    for i in 0..count {
        let x = operand_answer(nodes, pool, bytes, base, work, n, i);
        bus = bus_step(bus, x);
    }
    bus
}
