// "Numbers a call answers with": the names of specs/Rules/Numbers, for the code that answers them.
pub const DONE: u32 = 0;

pub const NOT_ALIGNED: u32 = 1;

pub const OVER_LIMIT: u32 = 2;

pub const UNKNOWN_KIND: u32 = 3;

pub const BAD_LAYOUT: u32 = 4;

pub const BAD_CHILD: u32 = 5;

pub const NOT_VERIFIED: u32 = 6;

pub const NO_ROOT: u32 = 7;

pub const NOT_EVALUABLE: u32 = 8;

pub const MANY_INPUTS: u32 = 9;

pub const LITTLE_WORK: u32 = 10;

pub const OUT_OF_BOUNDS: u32 = 11;

pub const BAD_ASSIGNMENT: u32 = 12;

pub const BAD_TABLE: u32 = 13;

pub const WIDE_GATE: u32 = 14;

pub const SHORT_OUTPUT: u32 = 19;
