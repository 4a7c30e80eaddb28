// The kinds of node (specs/Rules/Kinds), and the kind words that a rule names.
ghost use Rattle.std.specs.Prelude.{◌≡◌};
ghost use Rattle.meaning.specs.Rules.Kinds.{kind_of};

// The four registers are one kind; the kind word tells them apart. A word above 16 is of no kind.
#[derive(Clone, Copy, PartialEq, Eq)]
pub enum Kind {
    Const,
    Program,
    DC,
    Var,
    Nor,
    Mux,
    And,
    Xor,
    Not,
    Lut,
    Bus,
    Reg,
    Arg,
    Cycle,
    Unknown,
}

// "Kinds, in 000's order: 0 Const, ... 16 Cycle"
impl From<u32> for Kind {
    ghost from_gives = { λ word kind. kind ≡ kind_of word };

    fn from(word: u32) -> Kind {
        match word {
            0 => Kind::Const,
            1 => Kind::Program,
            2 => Kind::DC,
            3 => Kind::Var,
            4 => Kind::Nor,
            5 => Kind::Mux,
            6 => Kind::And,
            7 => Kind::Xor,
            8 => Kind::Not,
            9 => Kind::Lut,
            10 => Kind::Bus,
            11..=14 => Kind::Reg,
            15 => Kind::Arg,
            16 => Kind::Cycle,
            _ => Kind::Unknown,
        }
    }
}

pub const PROGRAM: u32 = 1;

// Const, Program, DC and Var have no part of the pool; "kinds 4 to 16" have one
pub const VARIABLE: u32 = 3;

// "a reachable gate (kinds 4 to 8)" is below it
pub const LUT: u32 = 9;

pub const BUS: u32 = 10;

// the last kind there is
pub const CYCLE: u32 = 16;
