// Shapes (document 01, "Evaluable"): a bit, a bus of so many, or a Program; and number 8 of one node. The plain
// meaning is meaning's Rules/Evaluable: `shape`, `fits` and `shape_fault`, over trees. A caller uses
// `step::write_shapes`, one pass over the nodes in number order that leaves every node's shape in the work space, and
// then `fit::shape_fault`, which looks only at a node's mark and its children's shapes; which node is the lowest
// faulty one is the verifier's to find. `gate::gate_fault` is number 14 of one node, which the canonicaliser asks.
#![tactic(auto)]

pub mod fit;
pub mod gate;
pub mod step;
pub mod width;
