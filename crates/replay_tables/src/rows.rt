// A case is a row of 17 decimal words:
//   0 the routine, 0 to 6, in the order of `answers::answer`
//   1 p    2 k, msb or capacity    3 pos    4 v, 0 or 1    (0 where the routine has no such argument)
//   5 to 7 the answer that is expected: its number and its two values
//   8 how many input bytes, 0 to 8    9 to 16 the input bytes, and 0 behind them
use case_rows::ANY_WORD;

pub(crate) const ROW_WORDS: usize = 17;

// The largest word that may stand at each place of the row
pub(crate) fn largest() -> [u64; ROW_WORDS] {
    [
        6, ANY_WORD, ANY_WORD, ANY_WORD, 1, ANY_WORD, ANY_WORD, ANY_WORD, 8, 255, 255, 255, 255,
        255, 255, 255, 255,
    ]
}
