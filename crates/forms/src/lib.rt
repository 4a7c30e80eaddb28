// The normal form of every node that is the root or below it, written into its row (document 01, "Canonical list":
// "Mux, And, Xor, Nor, Not become Luts of programs 202, 8, 6, 1, 1. Then, children first, each Lut is folded until no
// rule applies"). It is the first of the canonicaliser's two passes. What a row then holds is form_rows' specs/Forms,
// `Formed`: its tree is meaning's `nf` of the tree at the node. A caller has a list past number 8 with its marks in the
// work space (rows, specs/Rows, `Prepared`). Nodes go by number, so that a node's children have their homes before it;
// no path is walked. Only the node's own row is written at its turn: the columns from HOME to the last of OPERAND, and
// NUMBER, which the second pass starts from.
#![tactic(auto)]

mod reading;
mod storing;

ghost use Rattle.std.specs.Prelude.{◌≡◌, true, false, ℕ, ◌<◌};
ghost use Rattle.meaning.specs.Rules.Trees.{node_count, kind_at};
ghost use Rattle.meaning.specs.Rules.Kinds.{kind_of};
ghost use Rattle.meaning.specs.Rules.Reach.{mark_of};
ghost use Rattle.columns.specs.Columns.{cell, number_column};
ghost use Rattle.rows.specs.Rows.{Prepared};
ghost use Rattle.form_rows.specs.Forms.{Formed};
ghost use Rattle.forms.specs.Turns.{Turn, Done, Beside};
ghost use Rattle.forms.specs.Operands.{folds};

use columns::{MARK, NUMBER, get, put};
use lists::children::children_of;
use meaning::limits::MOST_OPERANDS;
use nodes::{datum_of, kind_of, kind_word, node_count};
use reading::{folded_at, is_folded};
use storing::{put_row, store_folded};

// Inner: every node's normal form, and 0 in column NUMBER of every node.
pub fn write_forms(nodes: &[u32], pool: &[u32], work: &mut [u64])
    requires { Prepared nodes.now pool.now 0 work.old }
    ensures formed { Formed nodes.now pool.now work.new (node_count nodes.now) }
    ensures by_index { (i : ℕ) → i < node_count nodes.now → cell work.new number_column i ≡ 0 }
{
    for i in 0..node_count(nodes) {
        put(work, NUMBER, i, 0);
        write_form(nodes, pool, i, work);
    }
}

// Node i's turn; a node that no path reaches has no normal form.
fn write_form(nodes: &[u32], pool: &[u32], i: usize, work: &mut [u64])
    requires { Turn nodes.now pool.now work.old i }
    ensures beside { Beside work.old work.new i }
    ensures done { Done nodes.now pool.now work.new i }
{
    if get(work, MARK, i) == 0 {
        return;
    }
    if is_folded(kind_of(nodes, i)) {
        write_folded(nodes, pool, i, work);
    } else {
        write_kept(nodes, pool, i, work);
    }
}

// A gate or a Lut: its Lut is folded over its operands' homes.
fn write_folded(nodes: &[u32], pool: &[u32], i: usize, work: &mut [u64])
    requires turn { Turn nodes.now pool.now work.old i }
    requires i_nonzero { 0 < mark_of nodes.now pool.now i }
    requires i_value { folds (kind_of (kind_at nodes.now i)) ≡ true }
    ensures beside { Beside work.old work.new i }
    ensures done { Done nodes.now pool.now work.new i }
{
    let mut homes = [0u64; MOST_OPERANDS];
    let folded = folded_at(nodes, pool, i, work, &mut homes);
    store_folded(nodes, pool, i, folded, &homes, work);
}

// Any other kind keeps its kind, its datum and all its children.
fn write_kept(nodes: &[u32], pool: &[u32], i: usize, work: &mut [u64])
    requires turn { Turn nodes.now pool.now work.old i }
    requires i_nonzero { 0 < mark_of nodes.now pool.now i }
    requires i_value { folds (kind_of (kind_at nodes.now i)) ≡ false }
    ensures beside { Beside work.old work.new i }
    ensures done { Done nodes.now pool.now work.new i }
{
    let kind = kind_word(nodes, i) as u64;
    let datum = datum_of(nodes, i);
    let count = children_of(nodes, pool, i).len();
    put_row(work, i, i, kind, datum, count);
}
