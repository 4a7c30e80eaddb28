// The truth-table routines. A block is the number (0, or 13 out of range) and two words: the value and 0, or two
// values.
ghost use Rattle.std.specs.Prelude.{◌≡◌};
ghost use Rattle.meaning.specs.Rules.Tables.{answer_says, eval_lut, eval_lut_bv, to_bitvec, remove_lsb_var, cofactors_in_msb, swap_pos};
ghost use Rattle.panel_c.specs.Words.{table_words, const_input_words};

use meaning::OutOfRange;
use table_words::{Values, words_of};
use tables::{
    cofactors_in_msb, eval_lut, eval_lut_bv, eval_lut_const_input, remove_lsb_var, swap_pos,
    to_bitvec,
};

// What a routine answers, as its block.
#[tactic(auto, unfolding(crate::specs::Words::table_words))]
fn block<T: Values>(answer: Result<T, OutOfRange>) -> [u64; 3]
    ensures { result ≡ table_words (answer_says T.says answer) }
{
    let words = words_of(answer);
    [words.number, words.first, words.second]
}

// `eval_lut`: number, bit, 0.
#[unsafe(no_mangle)]
pub extern "C" fn panel_eval_lut(p: u64, inputs: &[u8], answer: &mut [u64; 3])
    ensures { answer.new ≡ table_words (eval_lut p inputs.now) }
{
    *answer = block(eval_lut(p, inputs));
}

// `eval_lut_bv`: number, bit, 0.
#[unsafe(no_mangle)]
pub extern "C" fn panel_eval_lut_bv(p: u64, inputs: &[u8], answer: &mut [u64; 3])
    ensures { answer.new ≡ table_words (eval_lut_bv p inputs.now) }
{
    *answer = block(eval_lut_bv(p, inputs));
}

// `to_bitvec`: number, width, value.
#[unsafe(no_mangle)]
pub extern "C" fn panel_to_bitvec(p: u64, capacity: u64, answer: &mut [u64; 3])
    ensures { answer.new ≡ table_words (to_bitvec p capacity) }
{
    *answer = block(to_bitvec(p, capacity));
}

// `remove_lsb_var`: number, 1 where there is a program, the program.
#[unsafe(no_mangle)]
pub extern "C" fn panel_remove_lsb_var(p: u64, k: u64, answer: &mut [u64; 3])
    ensures { answer.new ≡ table_words (remove_lsb_var p k) }
{
    *answer = block(remove_lsb_var(p, k));
}

// `eval_lut_const_input`: number, program, 0. A truth value has no third case in Rattle, and here it is out of range.
#[unsafe(no_mangle)]
#[tactic(auto, unfolding(crate::specs::Words::const_input_words, crate::specs::Words::table_words))]
pub extern "C" fn panel_eval_lut_const_input(p: u64, msb: u64, v: u64, answer: &mut [u64; 3])
    ensures { answer.new ≡ const_input_words p msb v }
{
    if v > 1 {
        *answer = block::<u64>(Err(OutOfRange));
    } else {
        *answer = block(eval_lut_const_input(p, msb, v == 1));
    }
}

// `cofactors_in_msb`: number, high half, low half.
#[unsafe(no_mangle)]
pub extern "C" fn panel_cofactors_in_msb(p: u64, k: u64, answer: &mut [u64; 3])
    ensures { answer.new ≡ table_words (cofactors_in_msb p k) }
{
    *answer = block(cofactors_in_msb(p, k));
}

// `swap_pos`: number, program, 0.
#[unsafe(no_mangle)]
pub extern "C" fn panel_swap_pos(p: u64, k: u64, pos: u64, answer: &mut [u64; 3])
    ensures { answer.new ≡ table_words (swap_pos p k pos) }
{
    *answer = block(swap_pos(p, k, pos));
}
