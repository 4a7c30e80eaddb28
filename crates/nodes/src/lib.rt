// A node's words (document 01, "The node list": "nodes, three words each (kind, first, count)"). The plain meaning is
// that of meaning's Rules/Trees (`node_count`, `kind_at`, `first_at`, `count_at`, `datum_at`), and each accessor's
// contract is an equation with it. No other file says where in the list a word is read; the words of a list that is made
// are stored by list_output's `put_node`.
#![tactic(auto)]

ghost use Rattle.std.specs.Prelude.{◌≡◌, ◌+◌, ◌*◌, ◌^◌, ◌<◌};
ghost use Rattle.meaning.specs.Rules.Kinds.{kind_of};
ghost use Rattle.meaning.specs.Rules.Trees.{node_count, kind_at, first_at, count_at, datum_at};

use meaning::kinds::{Kind, PROGRAM, VARIABLE};
use meaning::limits::WORDS_PER_NODE;

// a Program's halves have 32 bits each
pub const HALF: u64 = 4294967296;

// A word as a number to index with. That it stays below 2^32 is what keeps first + count from wrapping.
pub fn wide(x: u32) -> usize
    ensures { (result ≡ x) × (result < 2 ^ 32) }
{
    x as usize
}

// The whole nodes in the list; words left over are number 1's.
pub fn node_count(nodes: &[u32]) -> usize
    ensures { result ≡ node_count nodes.now }
{
    nodes.len() / WORDS_PER_NODE
}

// Inner: the kind of node i.
pub fn kind_of(nodes: &[u32], i: usize) -> Kind
    requires { i < node_count nodes.now }
    ensures { result ≡ kind_of (kind_at nodes.now i) }
{
    Kind::from(kind_word(nodes, i))
}

// Inner: its kind word, which tells the four registers apart.
pub fn kind_word(nodes: &[u32], i: usize) -> u32
    requires { i < node_count nodes.now }
    ensures { result ≡ kind_at nodes.now i }
{
    nodes[i * WORDS_PER_NODE]
}

// Inner: the first word of node i.
pub fn first_of(nodes: &[u32], i: usize) -> usize
    requires { i < node_count nodes.now }
    ensures { (result ≡ first_at nodes.now i) × (result < 2 ^ 32) }
{
    wide(nodes[i * WORDS_PER_NODE + 1])
}

// Inner: the count word of node i.
pub fn count_of(nodes: &[u32], i: usize) -> usize
    requires { i < node_count nodes.now }
    ensures { (result ≡ count_at nodes.now i) × (result < 2 ^ 32) }
{
    wide(nodes[i * WORDS_PER_NODE + 2])
}

// Inner: a constant's bit, a Program's value, a variable's number; 0 for a kind that has children.
pub fn datum_of(nodes: &[u32], i: usize) -> u64
    requires { i < node_count nodes.now }
    ensures { result ≡ datum_at nodes.now i }
{
    let kind = kind_word(nodes, i);
    if kind > VARIABLE {
        return 0;
    }
    let first = first_of(nodes, i);
    if kind != PROGRAM {
        return first as u64;
    }
    from_halves(first, count_of(nodes, i))
}

// "Program: low half in first, high half in count"; both are words, so their value is one of 64 bits.
fn from_halves(low: usize, high: usize) -> u64
    requires { (low < 2 ^ 32) × (high < 2 ^ 32) }
    ensures { result ≡ low + high * 2 ^ 32 }
{
    low as u64 + high as u64 * HALF
}
