// Room for an assignment and for an output, past what document 01 takes ("an assignment slice over 256 bytes"; two words for
// each of "at most 4,096 nodes"), so that longer ones can be lent.

pub(crate) const BYTE_ROOM: usize = 300;

pub(crate) const OUT_ROOM: usize = 8300;
