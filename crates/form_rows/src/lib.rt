// A node's normal form as a row of the work space holds it (document 01, "Canonical list"): its kind, its datum or a
// Lut's program, and its children, each by the node whose row holds the child's own normal form, its home. The plain
// meaning is specs/Forms: `FormAt` says that the row's tree is meaning's `nf` of the tree at the node. Nothing here
// writes; the pass `forms` fills the rows, and what makes the list reads them. No node of the list that is made has a
// number yet, and no number of the given list stands in what is made: homes are looked up in the given list alone.
#![tactic(auto)]

ghost use Rattle.std.specs.Prelude.{◌≡◌, ◌+◌, ◌*◌, ◌≤◌, ◌<◌, length};
ghost use Rattle.meaning.specs.Rules.Limits.{work_per_node};
ghost use Rattle.meaning.specs.Rules.Trees.{node_count};
ghost use Rattle.columns.specs.Columns.{cell, home_column, kind_column, datum_column, count_column};
ghost use Rattle.form_rows.specs.Forms.{Home, Formed, kid_at};

use columns::{COUNT, DATUM, HOME, KIND, OPERAND, get};
use lists::children::children_of;
use nodes::wide;

// The kind words that a rule of folding or listing names. A row keeps the word and not the kind, for equal forms have one
// word, and the four registers are one kind.
pub const CONSTANT: u64 = 0;

pub const PROGRAM: u64 = 1;

pub const LUT: u64 = 9;

// Inner: the node whose row holds node i's normal form.
pub fn home_of(work: &[u64], i: usize) -> usize
    requires { work_per_node * i + work_per_node ≤ length work.now }
    ensures { result ≡ cell work.now home_column i }
{
    get(work, HOME, i) as usize
}

// Inner: the kind of the normal form in row h.
pub fn kind_in(work: &[u64], h: usize) -> u64
    requires { work_per_node * h + work_per_node ≤ length work.now }
    ensures { result ≡ cell work.now kind_column h }
{
    get(work, KIND, h)
}

// Inner: its datum, or a Lut's program.
pub fn datum_in(work: &[u64], h: usize) -> u64
    requires { work_per_node * h + work_per_node ≤ length work.now }
    ensures { result ≡ cell work.now datum_column h }
{
    get(work, DATUM, h)
}

// Inner: how many children it has, a Lut's Program not counted.
pub fn kid_count(work: &[u64], h: usize) -> usize
    requires { work_per_node * h + work_per_node ≤ length work.now }
    ensures { result ≡ cell work.now count_column h }
{
    get(work, COUNT, h) as usize
}

// Inner: the home of its child j, a Lut's Program not counted. A Lut's operands stand in the row, for folding may have
// dropped some; any other node has the children that it was given.
pub fn kid(nodes: &[u32], pool: &[u32], work: &[u64], h: usize, j: usize) -> usize
    requires formed { Formed nodes.now pool.now work.now (node_count nodes.now) }
    requires home { Home nodes.now pool.now work.now h }
    requires j_bound { j < cell work.now count_column h }
    ensures { result ≡ kid_at nodes.now pool.now work.now h j }
{
    if kind_in(work, h) == LUT {
        return get(work, OPERAND + j, h) as usize;
    }
    let children = children_of(nodes, pool, h);
    home_of(work, wide(children[j]))
}
