// The part of the pool that one node of the list has: the numbers of its children in the list that is made, a Lut's
// Program first. No number of the given list stands in it.
ghost use Rattle.std.specs.Prelude.{◌≡◌, ◌+◌, ◌*◌, ◌/◌, ◌%◌, ◌^◌, ◌≤◌, ◌<◌, length};
ghost use Rattle.std.proofs.lemmas.List.Edits.{sets};
ghost use Rattle.meaning.specs.Rules.Limits.{work_per_node};
ghost use Rattle.meaning.specs.Rules.Kinds.{lut_word};
ghost use Rattle.columns.specs.Columns.{cell, kind_column, count_column, program_column};
ghost use Rattle.list_output.specs.Words.{Numbers, program_count, child_count};
ghost use Rattle.list_output.specs.Words.{program_part, kid_number, kids_part, entry_part};

use super::entry::program_count;
use columns::{NUMBER, PROGRAM_NUMBER, get};
use form_rows::{LUT, kid, kid_count, kind_in};
use listed::{FIRST_NUMBER, PAIR};

// The part of the entry's tree is written from `at` on; a Program has none.
pub(crate) fn write_part(
    nodes: &[u32],
    pool: &[u32],
    work: &[u64],
    entry: usize,
    at: usize,
    out: &mut [u32],
)
    requires numbers { entry % 2 ≡ 0 → Numbers nodes.now pool.now work.now (entry / 2) }
    requires in_bounds { at + child_count work.now entry ≤ length out.old }
    ensures { out.new ≡ sets out.old at (entry_part nodes.now pool.now work.now entry) }
{
    if entry % PAIR == 1 {
        return;
    }
    let h = entry / PAIR;
    write_program(work, h, at, out);
    write_kids(nodes, pool, work, h, at + program_count(work, h), out);
}

// The number of a Lut's Program; any other form has none.
fn write_program(work: &[u64], h: usize, at: usize, out: &mut [u32])
    requires work_per_node_in_bounds { work_per_node * h + work_per_node ≤ length work.now }
    requires h_bound { cell work.now kind_column h ≡ lut_word → cell work.now program_column h < 2 ^ 32 }
    requires h_in_bounds { at + program_count work.now h ≤ length out.old }
    ensures { out.new ≡ sets out.old at (program_part work.now h) }
{
    if kind_in(work, h) == LUT {
        out[at] = get(work, PROGRAM_NUMBER, h) as u32;
    }
}

// The numbers of the children that the row of h counts.
fn write_kids(nodes: &[u32], pool: &[u32], work: &[u64], h: usize, at: usize, out: &mut [u32])
    requires numbers { Numbers nodes.now pool.now work.now h }
    requires h_in_bounds { at + cell work.now count_column h ≤ length out.old }
    ensures { out.new ≡ sets out.old at (kids_part nodes.now pool.now work.now h) }
{
    for j in 0..kid_count(work, h) {
        out[at + j] = kid_number(nodes, pool, work, h, j);
    }
}

// The number of child j of the form in row h.
#[tactic(auto, unfolding(crate::specs::Words::kid_number))]
fn kid_number(nodes: &[u32], pool: &[u32], work: &[u64], h: usize, j: usize) -> u32
    requires numbers { Numbers nodes.now pool.now work.now h }
    requires j_bound { j < cell work.now count_column h }
    ensures { result ≡ kid_number nodes.now pool.now work.now h j }
{
    (get(work, NUMBER, kid(nodes, pool, work, h, j)) - FIRST_NUMBER) as u32
}
