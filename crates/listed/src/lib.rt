// The subtrees that are listed so far, in the work space (document 01, "Canonical list": "each distinct subtree below
// the root once, Programs included"). An entry of column LISTED is twice the number of a node, for its normal form, or
// one more, for the Program of the Lut that its normal form is: a Program that folding made stands at no node. The plain
// meaning is meaning's Rules/Listing, `keep` and `number_in`; a caller asks `lowest_form` or `lowest_program` for the
// entry that is the same tree, and the laws that join the two are in specs/Likeness.
#![tactic(auto)]

mod alike;

ghost use Rattle.std.specs.Prelude.{◌≡◌, ◌+◌, ◌*◌, ◌/◌, ◌≤◌, ◌<◌, length, set};
ghost use Rattle.meaning.specs.Rules.Limits.{work_per_node};
ghost use Rattle.meaning.specs.Rules.Trees.{node_count};
ghost use Rattle.meaning.specs.Rules.Search.{lowest};
ghost use Rattle.form_rows.specs.Forms.{Home, Formed};
ghost use Rattle.listed.specs.Entries.{listed_place, listed_at, Readable, Listable};
ghost use Rattle.listed.specs.Likeness.{entry_is_program, is_program, entry_is_form, is_form};

use alike::same_row;
use columns::{LISTED, get, put};
use form_rows::{PROGRAM, datum_in, kind_in};

// an entry is twice a node's number, or one more; and a row has room for two
pub const PAIR: usize = 2;

// a number stands in column NUMBER with this added: 0 is a node not met, 1 one on the path of the walk
pub const FIRST_NUMBER: u64 = 2;

// Inner: entry k.
#[tactic(auto, unfolding(crate::specs::Entries::listed_at))]
pub fn listed_at(work: &[u64], k: usize) -> usize
    requires { work_per_node * (k / 2) + work_per_node ≤ length work.now }
    ensures { result ≡ listed_at work.now k }
{
    get(work, LISTED + k % PAIR, k / PAIR) as usize
}

// Inner: stores entry k, and leaves all others.
pub fn put_listed(work: &mut [u64], k: usize, entry: u64)
    requires { work_per_node * (k / 2) + work_per_node ≤ length work.old }
    ensures { work.new ≡ set work.old (listed_place k) entry }
{
    put(work, LISTED + k % PAIR, k / PAIR, entry);
}

// Inner: the lowest of the first `count` entries that is this Program, be it a Lut's or a node's own; `count` where
// none is.
pub fn lowest_program(work: &[u64], count: usize, program: u64) -> usize
    requires { Readable work.now count }
    ensures { result ≡ lowest (is_program work.now program) count }
{
    (0..count)
        .find(|&k| is_program(work, listed_at(work, k), program))
        .unwrap_or(count)
}

// Is the entry this Program?
#[tactic(auto, unfolding(crate::specs::Likeness::entry_is_program))]
fn is_program(work: &[u64], entry: usize, program: u64) -> bool
    requires { work_per_node * (entry / 2) + work_per_node ≤ length work.now }
    ensures { result ≡ entry_is_program work.now program entry }
{
    let h = entry / PAIR;
    datum_in(work, h) == program && (entry % PAIR == 1 || kind_in(work, h) == PROGRAM)
}

// Inner: the lowest of the first `count` entries that is the normal form in row h, which is no Program; `count` where
// none is.
pub fn lowest_form(nodes: &[u32], pool: &[u32], work: &[u64], count: usize, h: usize) -> usize
    requires listable { Listable nodes.now pool.now work.now count }
    requires home { Home nodes.now pool.now work.now h }
    ensures { result ≡ lowest (is_form nodes.now pool.now work.now h) count }
{
    (0..count)
        .find(|&k| is_form(nodes, pool, work, h, listed_at(work, k)))
        .unwrap_or(count)
}

// Is the entry the form in row h? An odd one is a Program.
#[tactic(auto, unfolding(crate::specs::Likeness::entry_is_form))]
fn is_form(nodes: &[u32], pool: &[u32], work: &[u64], h: usize, entry: usize) -> bool
    requires formed { Formed nodes.now pool.now work.now (node_count nodes.now) }
    requires home { Home nodes.now pool.now work.now h }
    requires home_2 { Home nodes.now pool.now work.now (entry / 2) }
    ensures { result ≡ entry_is_form nodes.now pool.now work.now h entry }
{
    entry % PAIR == 0 && same_row(nodes, pool, work, h, entry / PAIR)
}
