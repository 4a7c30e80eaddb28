// The words whose bits are among those of another word, in order: what a search that drives some variables and leaves
// the rest alone goes through. The plain meaning is specs/Among; a caller starts at 0, which is the lowest, and asks
// `next_among` until it has the whole mask, which is the highest. No user calls this crate.
#![tactic(auto)]

ghost use Rattle.std.specs.Prelude.{◌<◌};
ghost use Rattle.subsets.specs.Among.{Among};
ghost use Rattle.subsets.specs.Next.{IsNext};

// Inner: the lowest word above x among those of the mask. Taking x from the mask leaves the bits that are still to
// come; minus that is a word which, cut to the mask, is x with one added among the mask's bits alone (specs/Next).
pub fn next_among(mask: u64, x: u64) -> u64
    requires among { Among mask x }
    requires x_lt_mask { x < mask }
    ensures { IsNext mask x result }
{
    !(mask - x - 1) & mask
}
