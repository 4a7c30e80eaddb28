// Lent space before and after a call that a replay tries (document 01: "unchanged if 1, 2 or 10 refuses, else all zeros
// after the call; output past the answer is unchanged"). Its words are of 64 bits, as work space has, or of 32 bits, as
// the output slices have that a list is written into. The plain meaning is specs/Lent.antt.
#![tactic(auto)]

ghost use Rattle.std.specs.Prelude.{◌≡◌, ℕ, Bool, false, ◌<◌, ◌≤◌, length, drop};
ghost use Rattle.lent_words.specs.Lent as lent;

// A word that lent space is made of: what stands at a place before the call, and after one that is to clear it or not.
// Before the call no word is 0, so that one left alone is told from one cleared; and no two are alike, so that one moved
// is told too.
pub trait LentWord: Copy + PartialEq {
    // The word at the first place before the call: as many places have words that do not wrap.
    ghost mark: { ℕ };

    ghost after: { Bool → ℕ → Self };

    fn after(place: usize, cleared: bool) -> Self
        requires { place < mark }
        ensures { result ≡ after cleared place };
}

// 2^63: nor is a word small, so that it is told from a state or a narrow value written there.
const WIDE: u64 = 9223372036854775808;

// 2^31: nor is a word as small as those of a list are, but for a Program's halves.
const NARROW: u32 = 2147483648;

impl LentWord for u64 {
    ghost mark = { lent.wide };

    ghost after = { lent.after lent.wide };

    fn after(place: usize, cleared: bool) -> u64 {
        if cleared { 0 } else { WIDE + place as u64 }
    }
}

impl LentWord for u32 {
    ghost mark = { lent.narrow };

    ghost after = { lent.after lent.narrow };

    fn after(place: usize, cleared: bool) -> u32 {
        if cleared { 0 } else { NARROW + place as u32 }
    }
}

// Another word at each place, so that one that is written is told from one that is not. The words do not wrap: a slice
// of 64-bit words is never so long.
pub fn fill<W: LentWord>(words: &mut [W])
    requires { length words.old ≤ W.mark }
    ensures { words.new ≡ lent.filled_by (W.after false) 0 words.old }
{
    for (place, word) in words.iter_mut().enumerate() {
        *word = W::after(place, false);
    }
}

// Whether every word from a place on is 0 or, where it is not to be cleared, as it was before the call
pub fn is_left<W: LentWord>(words: &[W], from: usize, cleared: bool) -> bool
    requires { length words.now ≤ W.mark }
    ensures { result ≡ lent.left_by W.eq (W.after cleared) from (drop from words.now) }
{
    words
        .iter()
        .enumerate()
        .skip(from)
        .all(|(place, word)| *word == W::after(place, cleared))
}
