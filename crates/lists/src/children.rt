// A node's children (document 01, "The node list"): how many there may be, and which they are.
ghost use Rattle.std.specs.Prelude.{◌≡◌, ◌<◌};
ghost use Rattle.meaning.specs.Rules.Kinds.{may_have};
ghost use Rattle.meaning.specs.Rules.Trees.{node_count, children_at};
ghost use Rattle.lists.specs.Laid.{PartFits};

use meaning::kinds::Kind;
use meaning::limits::WIDEST_BUS;
use nodes::{count_of, first_of, kind_of};

// "The number of children is decided by the kind": may a node of this kind have `count` of them? A Program's count
// word is the high half of its value, and any; for a kind above 16 no count is right.
pub fn may_have(kind: Kind, count: usize) -> bool
    ensures { result ≡ may_have kind count }
{
    match kind {
        Kind::Const | Kind::DC | Kind::Var => count == 0,
        Kind::Program | Kind::Lut => true,
        Kind::Nor | Kind::And | Kind::Xor => count == 2,
        Kind::Mux => count == 3,
        Kind::Not | Kind::Arg | Kind::Cycle => count == 1,
        Kind::Bus => count <= WIDEST_BUS,
        Kind::Reg => count == 4,
        Kind::Unknown => false,
    }
}

// Inner: node i's children, "handed on as that part of the pool". Kinds 0 to 3 have none, whatever their words say;
// of any other the caller shows that the part lies in the pool.
#[tactic(auto, using(meaning::proofs::Laws::KindLaws::parent_word), unfolding(meaning::specs::Rules::Trees::children_at))]
pub fn children_of<'a>(nodes: &[u32], pool: &'a [u32], i: usize) -> &'a [u32]
    requires i_bound { i < node_count nodes.now }
    requires part_fits { PartFits nodes.now pool.now i }
    ensures { result.now ≡ children_at nodes.now pool.now i }
{
    match kind_of(nodes, i) {
        Kind::Const | Kind::Program | Kind::DC | Kind::Var => &[],
        _ => {
            let first = first_of(nodes, i);
            &pool[first..first + count_of(nodes, i)]
        }
    }
}
