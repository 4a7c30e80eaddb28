// Words bit by bit, for the crates above: a power of two, the all-ones word, one bit, the low bits, two parts joined,
// and the width test. The plain meaning is that of numbers, `bit_at` and `ones` of meaning's Rules/Words; no user
// calls this crate, and each call's contract is its theorem. What and, or, xor, complement and the shifts do to bit j
// is in specs/Bit.
#![tactic(auto)]

ghost use Rattle.std.specs.Prelude.{◌≡◌, ◌+◌, ◌*◌, ◌%◌, ◌^◌, ◌<◌, ◌≤◌};
ghost use Rattle.meaning.specs.Rules.Words.{bit_at, ones, word_fits};

// Inner: 2 to the `exponent`, as one shift. An exponent of 64 has no word, so callers stay below it.
pub fn power_of_two(exponent: u64) -> u64
    requires { exponent < 64 }
    ensures { result ≡ 2 ^ exponent }
{
    1 << exponent
}

// Inner: all ones, `width` wide. Width 64 has a way of its own, since its power of two is no word; width 0 gives 0.
pub fn ones_of(width: u32) -> u64
    requires { width ≤ 64 }
    ensures { result ≡ ones width }
{
    if width == 64 {
        u64::MAX
    } else {
        power_of_two(width as u64) - 1
    }
}

// Inner: bit `place` of a program.
pub fn bit_at(program: u64, place: u64) -> u64
    requires { place < 64 }
    ensures { result ≡ bit_at program place }
{
    program >> place & 1
}

// Inner: the bits of `word` below `place`.
pub fn low_bits(word: u64, place: u64) -> u64
    requires { place < 64 }
    ensures { result ≡ word % 2 ^ place }
{
    word & (power_of_two(place) - 1)
}

// Inner: `high` from bit `place` on, and `low` below it. No bit of `high` may be lost, so the caller shows that it
// has room.
pub fn join(high: u64, place: u64, low: u64) -> u64
    requires { (place < 64) × (high * 2 ^ place < 2 ^ 64) × (low < 2 ^ place) }
    ensures { result ≡ high * 2 ^ place + low }
{
    high << place | low
}

// Inner: does `word` fit `width` bits, and is that a width at all? 64 takes every word and has no power of two to compare
// with; above 64 nothing may be shifted.
pub fn word_fits(word: u64, width: u64) -> bool
    ensures { result ≡ word_fits word width }
{
    match width {
        0..=63 => word < power_of_two(width),
        64 => true,
        _ => false,
    }
}
