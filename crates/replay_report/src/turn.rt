// What a turn over the cases comes to.
ghost use Rattle.std.specs.Prelude.{◌≡◌};
ghost use Rattle.replay_report.specs.declared.turn.Fault.TheVariants.{Malformed, Unwritten};

use decimals::Bad;
use std::io;

// One case tried: the offset behind it, and whether it differs.
#[derive(Clone, Copy)]
pub struct Tried {
    pub next: usize,
    pub differs: bool,
}

// Why a case is not tried to its end: a fault of the text, or what came of telling that the case differs.
#[derive(Debug, Drop)]
pub enum Fault {
    Malformed(Bad),
    Unwritten(io::Error),
}

impl From<Bad> for Fault {
    ghost from_gives = { λ bad fault. fault ≡ Malformed bad };

    fn from(bad: Bad) -> Fault {
        Fault::Malformed(bad)
    }
}

impl From<io::Error> for Fault {
    ghost from_gives = { λ why fault. fault ≡ Unwritten why };

    fn from(why: io::Error) -> Fault {
        Fault::Unwritten(why)
    }
}
