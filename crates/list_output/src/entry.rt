// An entry of the list by its row (listed): the form of a node, or the Program of the Lut that the form is.
ghost use Rattle.std.specs.Prelude.{◌≡◌, ◌+◌, ◌*◌, ◌/◌, ◌≤◌, length};
ghost use Rattle.meaning.specs.Rules.Limits.{work_per_node, widest_bus};
ghost use Rattle.meaning.specs.Rules.Kinds.{cycle_word};
ghost use Rattle.columns.specs.Columns.{cell, kind_column, count_column};
ghost use Rattle.list_output.specs.Words.{entry_kind, program_count, child_count};

use form_rows::{LUT, kid_count, kind_in};
use listed::PAIR;
use meaning::kinds::PROGRAM;

// The kind word of its tree.
#[tactic(auto, unfolding(crate::specs::Words::entry_kind))]
pub(crate) fn entry_kind(work: &[u64], entry: usize) -> u32
    requires work_per_node_in_bounds { work_per_node * (entry / 2) + work_per_node ≤ length work.now }
    requires bound { cell work.now kind_column (entry / 2) ≤ cycle_word }
    ensures { result ≡ entry_kind work.now entry }
{
    if entry % PAIR == 1 {
        PROGRAM
    } else {
        kind_in(work, entry / PAIR) as u32
    }
}

// How many children its tree has; a Program has none.
#[tactic(auto, using(crate::specs::Sizes::program_one), unfolding(crate::specs::Words::child_count))]
pub(crate) fn child_count(work: &[u64], entry: usize) -> usize
    requires work_per_node_in_bounds { work_per_node * (entry / 2) + work_per_node ≤ length work.now }
    requires bound { cell work.now count_column (entry / 2) ≤ widest_bus }
    ensures { result ≡ child_count work.now entry }
{
    if entry % PAIR == 1 {
        return 0;
    }
    let h = entry / PAIR;
    program_count(work, h) + kid_count(work, h)
}

// A Lut's Program is a child too, and none of those that its row counts.
#[tactic(auto, unfolding(crate::specs::Words::program_count))]
pub(crate) fn program_count(work: &[u64], h: usize) -> usize
    requires { work_per_node * h + work_per_node ≤ length work.now }
    ensures { result ≡ program_count work.now h }
{
    usize::from(kind_in(work, h) == LUT)
}
