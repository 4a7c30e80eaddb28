// Two normal forms by their rows: the words, and the numbers of their children, which are listed before.
ghost use Rattle.std.specs.Prelude.{◌≡◌, ◌<◌, ◌≤◌};
ghost use Rattle.meaning.specs.Rules.Trees.{node_count};
ghost use Rattle.columns.specs.Columns.{cell, count_column};
ghost use Rattle.form_rows.specs.Forms.{Home, Formed};
ghost use Rattle.listed.specs.Likeness.{same_row, same_kids, kid_alike};

use columns::{NUMBER, get};
use form_rows::{datum_in, kid, kid_count, kind_in};

// Is the form in row g the one in row h? The words are asked first: most forms differ in them.
#[tactic(auto, unfolding(crate::specs::Likeness::same_row))]
pub(crate) fn same_row(nodes: &[u32], pool: &[u32], work: &[u64], h: usize, g: usize) -> bool
    requires formed { Formed nodes.now pool.now work.now (node_count nodes.now) }
    requires home { Home nodes.now pool.now work.now h }
    requires home_2 { Home nodes.now pool.now work.now g }
    ensures { result ≡ same_row nodes.now pool.now work.now h g }
{
    datum_in(work, h) == datum_in(work, g)
        && kind_in(work, h) == kind_in(work, g)
        && kid_count(work, h) == kid_count(work, g)
        && same_kids(nodes, pool, work, h, g, kid_count(work, h))
}

// Child by child the same number, for so many children that both have?
fn same_kids(nodes: &[u32], pool: &[u32], work: &[u64], h: usize, g: usize, count: usize) -> bool
    requires formed { Formed nodes.now pool.now work.now (node_count nodes.now) }
    requires home { Home nodes.now pool.now work.now h }
    requires home_2 { Home nodes.now pool.now work.now g }
    requires count_bound { count ≤ cell work.now count_column h }
    requires count_bound_2 { count ≤ cell work.now count_column g }
    ensures { result ≡ same_kids nodes.now pool.now work.now h g count }
{
    // Forms that are alike in their words mostly differ in their first child, so that one is asked before the walk.
    count == 0
        || same_kid(nodes, pool, work, h, g, 0)
            && (1..count).all(|j| same_kid(nodes, pool, work, h, g, j))
}

// Has child j the same number in both?
fn same_kid(nodes: &[u32], pool: &[u32], work: &[u64], h: usize, g: usize, j: usize) -> bool
    requires formed { Formed nodes.now pool.now work.now (node_count nodes.now) }
    requires home { Home nodes.now pool.now work.now h }
    requires home_2 { Home nodes.now pool.now work.now g }
    requires j_bound { j < cell work.now count_column h }
    requires j_bound_2 { j < cell work.now count_column g }
    ensures { result ≡ kid_alike nodes.now pool.now work.now h g j }
{
    let number = get(work, NUMBER, kid(nodes, pool, work, h, j));
    number == get(work, NUMBER, kid(nodes, pool, work, g, j))
}
