// One more entry, unless its tree is listed: a form, or the Program of a Lut ("each distinct subtree .. once, Programs
// included").
ghost use Rattle.std.specs.Prelude.{◌≡◌, ◌+◌, ◌*◌, ◌/◌, ◌≤◌, ◌<◌, length};
ghost use Rattle.meaning.specs.Rules.Limits.{work_per_node};
ghost use Rattle.form_rows.specs.Forms.{Home};
ghost use Rattle.listed.specs.Entries.{Readable, Listable};
ghost use Rattle.listing.specs.More.{kept_work, kept_count};
ghost use Rattle.listing.specs.Steps.{lut_work, lut_count, own_number};

use columns::{PROGRAM_NUMBER, put};
use form_rows::{LUT, PROGRAM, datum_in, kind_in};
use listed::{lowest_form, lowest_program, put_listed};

// The entry is stored where its tree was found nowhere, that is, at `count`. The answer is how many there are then.
pub(crate) fn list_entry(work: &mut [u64], number: usize, count: usize, entry: usize) -> usize
    requires { work_per_node * (count / 2) + work_per_node ≤ length work.old }
    ensures value { result ≡ kept_count number count }
    ensures work_after { work.new ≡ kept_work work.old number count entry }
{
    if number != count {
        return count;
    }
    put_listed(work, count, entry as u64);
    count + 1
}

// The Program of the Lut in row h is listed, and its number kept beside the Lut; of any other form nothing.
pub(crate) fn list_program(work: &mut [u64], count: usize, h: usize) -> usize
    requires readable { Readable work.old count }
    requires work_per_node_in_bounds { work_per_node * (count / 2) + work_per_node ≤ length work.old }
    requires work_per_node_in_bounds_2 { work_per_node * h + work_per_node ≤ length work.old }
    ensures value { result ≡ lut_count work.old count h }
    ensures work_after { work.new ≡ lut_work work.old count h }
{
    if kind_in(work, h) != LUT {
        return count;
    }
    let number = lowest_program(work, count, datum_in(work, h));
    let listed = list_entry(work, number, count, 2 * h + 1);
    put(work, PROGRAM_NUMBER, h, number as u64);
    listed
}

// The number of the form in row h: the entry that it is, or the next one.
pub(crate) fn own_number(nodes: &[u32], pool: &[u32], work: &[u64], count: usize, h: usize) -> usize
    requires listable { Listable nodes.now pool.now work.now count }
    requires home { Home nodes.now pool.now work.now h }
    ensures value { result ≡ own_number nodes.now pool.now work.now count h }
    ensures upper_bound { result ≤ count }
{
    if kind_in(work, h) == PROGRAM {
        return lowest_program(work, count, datum_in(work, h));
    }
    lowest_form(nodes, pool, work, count, h)
}
