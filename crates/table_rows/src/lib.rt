// Programs row by row: the range test, the halves, and the programs made from another's rows. A program over k
// operands has 2 ^ k rows, row i its bit i (document 01, "Truth-table routines"). The plain meaning is that of
// meaning's Rules/Tables, and each call's contract is an equation with it. No user calls this crate: `tables` and
// `faults` do.
#![tactic(auto)]

ghost use Rattle.std.specs.Prelude.{◌≡◌, ℕ, cond, ◌+◌, ◌^◌, ◌<◌, ◌≤◌};
ghost use Rattle.meaning.specs.Rules.Words.{bit_at};
ghost use Rattle.meaning.specs.Rules.Tables as meant;

use bits::{bit_at, join, low_bits, power_of_two, word_fits};
use meaning::limits::MOST_OPERANDS;

// Inner: is `p` a program over `k` operands, of which there are at most six? Any numbers. The 64 rows of six operands
// take every word.
pub fn table_fits(p: u64, k: u64) -> bool
    ensures { result ≡ meant.table_fits p k }
{
    k <= MOST_OPERANDS as u64 && word_fits(p, power_of_two(k))
}

// Inner: of a program over k + 1 operands, the rows in which the most significant is 1 (`high`), or 0.
pub fn half(p: u64, k: u64, high: bool) -> u64
    requires { k ≤ 5 }
    ensures { result ≡ cond high (meant.high_half p k) (meant.low_half p k) }
{
    let rows = power_of_two(k);
    if high {
        return p >> rows;
    }
    low_bits(p, rows)
}

// The program of so many rows whose row i is row `source(i)` of `p`. Where `source` answers as a map g of row numbers,
// it is the table that g makes.
fn made_from<F: Fn(u64) -> u64>(p: u64, rows: u64, source: F) -> u64
    requires few { rows ≤ 64 }
    requires callable { (i : ℕ) → i < rows → F.pre source i }
    requires within { (i row : ℕ) → i < rows → F.post source i row → row < 64 }
    ensures { (g : ℕ → ℕ) → ((i row : ℕ) → i < rows → F.post source i row → row ≡ g i) → result ≡ meant.table (λ i. bit_at p (g i)) rows }
{
    let mut made: u64 = 0;
    for i in 0..rows {
        made = join(bit_at(p, source(i)), i, made);
    }
    made
}

// Row `i` with the bit `b` put in at place `q`.
fn insert_bit(q: u64, b: u64, i: u64) -> u64
    requires { (q ≤ 5) × (b < 2) × (i < 32) }
    ensures { result ≡ meant.insert_bit q b i }
{
    join((i >> q) * 2 + b, q, low_bits(i, q))
}

// Inner: of a program over k + 1 operands, the program over k with the operand at row bit `q` tied to `b`: the rows
// left, in order.
pub fn cofactor(p: u64, k: u64, q: u64, b: u64) -> u64
    requires { (k ≤ 5) × (q ≤ k) × (b < 2) }
    ensures { result ≡ meant.cofactor p k q b }
{
    made_from(p, power_of_two(k), |i| insert_bit(q, b, i))
}

// Inner: of a program over k + 1 operands, does no row pair depend on the operand at row bit `q`? Its two cofactors
// are then the same program.
pub fn ignores(p: u64, k: u64, q: u64) -> bool
    requires { (k ≤ 5) × (q ≤ k) }
    ensures { result ≡ meant.ignores p k q }
{
    cofactor(p, k, q, 0) == cofactor(p, k, q, 1)
}

// Row `i` with its bits `pos` and `pos + 1` exchanged.
fn swap_bits(pos: u64, i: u64) -> u64
    requires { (pos ≤ 4) × (i < 64) }
    ensures { result ≡ meant.swap_bits pos i }
{
    let high = (i >> (pos + 2)) * 2 + bit_at(i, pos);
    join(high * 2 + bit_at(i, pos + 1), pos, low_bits(i, pos))
}

// Inner: the program whose every row is the row of `p` with bits `pos` and `pos + 1` exchanged.
pub fn swapped(p: u64, k: u64, pos: u64) -> u64
    requires { (k ≤ 6) × (pos + 1 < k) }
    ensures { result ≡ meant.table (λ i. bit_at p (meant.swap_bits pos i)) (2 ^ k) }
{
    made_from(p, power_of_two(k), |i| swap_bits(pos, i))
}
