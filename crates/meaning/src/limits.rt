// The numbers of specs/Rules/Limits as code reads them. Each is held to its definition by the proofs that use it; no
// other source file writes one down.

// "nodes, three words each (kind, first, count)"
pub const WORDS_PER_NODE: usize = 3;

// "At most 4,096 nodes and 16,384 pool entries"
pub const MOST_NODES: usize = 4096;

pub const MOST_POOL: usize = 16384;

// "Var: first is its number 0 to 255"
pub const VARIABLE_COUNT: usize = 256;

// "16 u64 words per node plus 2 per pool entry"
pub const WORK_PER_NODE: usize = 16;

pub const WORK_PER_POOL: usize = 2;

// "0 to 64 for Bus"
pub const WIDEST_BUS: usize = 64;

// "over 30 variables below the first root"
pub const MOST_INPUTS: usize = 30;

// "a Lut .. with more than seven [children]", the first its Program; "k at most 6"
pub const MOST_OPERANDS: usize = 6;
