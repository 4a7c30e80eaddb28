// A node's children and its layout (document 01, "The node list"): how many children its kind may have, which part of
// the pool they are, and numbers 3 to 5 of one node. The plain meaning is that of meaning's Rules/Trees,
// `children_at`, and Rules/Layout, `layout_fault`. A caller asks `layout::layout_fault` of each node of a list within
// the limits; past numbers 3 to 5 it reads children through `children::children_of`. Each call's contract joins the
// two: its answer is what the definition named there gives. What a caller may rely on past those numbers is in
// specs/Laid.
#![tactic(auto)]

pub mod children;
pub mod layout;
