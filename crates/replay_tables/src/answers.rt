// What the routine that a row names answers, and whether that is what the row expects.
ghost use Rattle.std.specs.Prelude.{◌≡◌, ◌≤◌, length};

use super::rows::ROW_WORDS;
use table_words::{Words, words_of};

pub(crate) fn agrees(row: &[u64; ROW_WORDS]) -> bool {
    let bytes = input_bytes(row);
    let count = input_count(row);
    table_words::same(answer(row, &bytes[..count]), expected(row))
}

fn expected(row: &[u64; ROW_WORDS]) -> Words {
    Words {
        number: row[5],
        first: row[6],
        second: row[7],
    }
}

// The routine is told by its number, a word of the recorded case.
fn answer(row: &[u64; ROW_WORDS], inputs: &[u8]) -> Words {
    let p = row[1];
    let size = row[2];
    match row[0] {
        0 => words_of(tables::eval_lut(p, inputs)),
        1 => words_of(tables::eval_lut_bv(p, inputs)),
        2 => words_of(tables::to_bitvec(p, size)),
        3 => words_of(tables::remove_lsb_var(p, size)),
        4 => words_of(tables::eval_lut_const_input(p, size, row[4] == 1)),
        5 => words_of(tables::cofactors_in_msb(p, size)),
        _ => words_of(tables::swap_pos(p, size, row[3])),
    }
}

// ---- the input bytes of a row

fn input_count(row: &[u64; ROW_WORDS]) -> usize
    ensures { result ≤ 8 }
{
    row[8].min(8) as usize
}

fn input_bytes(row: &[u64; ROW_WORDS]) -> [u8; 8]
    ensures { 8 ≡ length result }
{
    let mut bytes = [0u8; 8];
    for (i, byte) in bytes.iter_mut().enumerate() {
        *byte = (row[9 + i] % 256) as u8;
    }
    bytes
}
