// What each kind of answer stands for where the arguments are in range: a number, 0, and two values.
ghost use Rattle.meaning.specs.Rules.Tables.{TableAnswer, bit_says, width_and_value, smaller_says, program_says, high_and_low};
ghost use Rattle.table_words.specs.Said.{Said};

use super::{Words, three};
use meaning::{BitVector, Cofactors};

pub trait Values {
    ghost says: { Self → TableAnswer };

    fn words(self) -> Words
        ensures { Said result (says self) };
}

// `eval_lut`, `eval_lut_bv`
impl Values for bool {
    ghost says = { bit_says };

    fn words(self) -> Words {
        three(0, if self { 1 } else { 0 }, 0)
    }
}

// `to_bitvec`
impl Values for BitVector {
    ghost says = { width_and_value };

    fn words(self) -> Words {
        three(0, self.width, self.value)
    }
}

// `remove_lsb_var`
impl Values for Option<u64> {
    ghost says = { smaller_says };

    fn words(self) -> Words {
        match self {
            Some(program) => three(0, 1, program),
            None => three(0, 0, 0),
        }
    }
}

// `eval_lut_const_input`, `swap_pos`
impl Values for u64 {
    ghost says = { program_says };

    fn words(self) -> Words {
        three(0, self, 0)
    }
}

// `cofactors_in_msb`
impl Values for Cofactors {
    ghost says = { high_and_low };

    fn words(self) -> Words {
        three(0, self.high, self.low)
    }
}
