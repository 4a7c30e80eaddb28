// The name of a verdict (document 002, check.rs, `Display`): written into bytes that the caller lends. The plain
// meaning is `display` of meaning's Rules/Verdict, with what the lent slice holds afterwards.
#![tactic(auto)]

ghost use Rattle.std.specs.Prelude.{◌≡◌, length, leb};
ghost use Rattle.meaning.specs.Rules.Verdict as rules;

use meaning::{Check, TooShort};

// Stands for `Display`: the verdict's name at the start of the lent slice, and how many bytes it has. Where the slice is too short for the whole
// name, nothing is written and the answer is number 19 (document 01, "Numbers a call answers with").
#[tactic(auto, unfolding(meaning::specs::Rules::Verdict::display))]
pub fn display(c: Check, out: &mut [u8]) -> Result<u64, TooShort>
    ensures { rules.displayed result out.new ≡ rules.display c out.old }
{
    match c {
        Check::Equiv => write_name(b"Equiv", out),
        Check::NotEquiv => write_name(b"NotEquiv", out),
        Check::Inconclusive => write_name(b"Inconclusive", out),
    }
}

fn write_name(name: &[u8], out: &mut [u8]) -> Result<u64, TooShort>
    ensures { rules.displayed result out.new ≡ rules.display_of (leb (length name.now) (length out.old)) name.now out.old }
{
    let count = name.len();
    if out.len() < count {
        return Err(TooShort);
    }
    out[..count].copy_from_slice(name);
    Ok(count as u64)
}
