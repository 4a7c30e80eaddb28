// A list as a term, a node a line: `n3: (LUT n0 n1 n2)`. A child is written by its node's number behind an n, so that
// it is told from a Program, which is a number alone; the last line is the root's. The operator words and the leaves
// are spelled as in the Rust (000, `LutLang`).
ghost use Rattle.std.specs.Prelude.{◌<◌};
ghost use Rattle.meaning.specs.Rules.Trees.{node_count};

use lists::children::children_of;
use meaning::kinds::Kind;
use nodes::{count_of, datum_of, first_of, kind_of, kind_word, node_count};
use std::io;
use std::io::Write;

// Any words; a list that a call answered has a line for each node.
pub fn write_term<W: Write>(out: &mut W, nodes: &[u32], pool: &[u32]) -> io::Result<()> {
    for i in 0..node_count(nodes) {
        write_line(out, nodes, pool, i)?;
    }
    Ok(())
}

fn write_line<W: Write>(out: &mut W, nodes: &[u32], pool: &[u32], i: usize) -> io::Result<()>
    requires { i < node_count nodes.now }
{
    write_name(out, i as u64)?;
    out.write_all(b": ")?;
    let datum = datum_of(nodes, i);
    match kind_of(nodes, i) {
        Kind::Const => write_constant(out, datum)?,
        Kind::Program => write!(out, "{datum}")?,
        Kind::DC => out.write_all(b"x")?,
        Kind::Var => write!(out, "v{datum}")?,
        _ => return write_parent(out, nodes, pool, i),
    }
    out.write_all(b"\n")
}

fn write_name<W: Write>(out: &mut W, node: u64) -> io::Result<()> {
    write!(out, "n{node}")
}

fn write_constant<W: Write>(out: &mut W, bit: u64) -> io::Result<()> {
    if bit == 1 {
        out.write_all(b"true")
    } else {
        out.write_all(b"false")
    }
}

// A node with children, to the end of its line.
fn write_parent<W: Write>(out: &mut W, nodes: &[u32], pool: &[u32], i: usize) -> io::Result<()>
    requires { i < node_count nodes.now }
{
    out.write_all(b"(")?;
    write_operator(out, kind_word(nodes, i))?;
    for child in children_there(nodes, pool, i) {
        out.write_all(b" ")?;
        write_name(out, *child as u64)?;
    }
    out.write_all(b")\n")
}

// The operators' words: one arm for each of the kinds 4 to 16. No list of a call's has another.
fn write_operator<W: Write>(out: &mut W, word: u32) -> io::Result<()> {
    match Kind::from(word) {
        Kind::Nor => out.write_all(b"NOR"),
        Kind::Mux => out.write_all(b"MUX"),
        Kind::And => out.write_all(b"AND"),
        Kind::Xor => out.write_all(b"XOR"),
        Kind::Not => out.write_all(b"NOT"),
        Kind::Lut => out.write_all(b"LUT"),
        Kind::Bus => out.write_all(b"BUS"),
        Kind::Reg => write_register(out, word),
        Kind::Arg => out.write_all(b"ARG"),
        Kind::Cycle => out.write_all(b"CYCLE"),
        _ => out.write_all(b"?"),
    }
}

// The four registers are one kind; the kind word tells them apart.
fn write_register<W: Write>(out: &mut W, word: u32) -> io::Result<()> {
    match word {
        11 => out.write_all(b"REG"),
        12 => out.write_all(b"FDSE"),
        13 => out.write_all(b"FDPE"),
        _ => out.write_all(b"FDCE"),
    }
}

// The children of a node that has some; none where their part runs past the pool, as in no list that a call answers.
fn children_there<'a>(nodes: &[u32], pool: &'a [u32], i: usize) -> &'a [u32]
    requires { i < node_count nodes.now }
{
    let end = first_of(nodes, i) + count_of(nodes, i);
    if end > pool.len() {
        return &pool[0..0];
    }
    children_of(nodes, pool, i)
}
