// The width of a value, by its node's shape (document 01, "Answers of a node": "its width is the node's shape").
ghost use Rattle.std.specs.Prelude.{◌≡◌, ◌+◌, ◌<◌, ◌≤◌};
ghost use Rattle.meaning.specs.Rules.Limits.{widest_bus};
ghost use Rattle.meaning.specs.Rules.Evaluable.{Shape, shape_code, width_of};

use super::step::{A_BIT, A_BUS};

// Inner: how wide the value of a node with that shape's code is; a Program has none.
pub fn width_of(shape: u64) -> u32
    requires { (0 < shape) × (shape ≤ widest_bus + 2) }
    ensures { (s : Shape) → shape_code s ≡ shape → result ≡ width_of s }
{
    match shape {
        A_BIT => 1,
        _ => (shape - A_BUS) as u32,
    }
}
