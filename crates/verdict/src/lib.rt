// The verdict of a comparison (document 002, check.rs): its constructors, its questions and its decision; `verdict_name`
// writes its name. A method of a type of another crate is refused by the language, so each is a function over `Check` by
// value.
#![tactic(auto)]

ghost use Rattle.std.specs.Prelude.{◌≡◌};
ghost use Rattle.meaning.specs.Rules.Verdict as rules;

use meaning::Check;

// ---- constructors

pub fn equivalent() -> Check
    ensures { result ≡ Check.Equiv }
{
    Check::Equiv
}

pub fn not_equivalent() -> Check
    ensures { result ≡ Check.NotEquiv }
{
    Check::NotEquiv
}

pub fn inconclusive() -> Check
    ensures { result ≡ Check.Inconclusive }
{
    Check::Inconclusive
}

// ---- questions

pub fn is_equiv(c: Check) -> bool
    ensures { result ≡ rules.is_equiv c }
{
    matches!(c, Check::Equiv)
}

pub fn is_not_equiv(c: Check) -> bool
    ensures { result ≡ rules.is_not_equiv c }
{
    matches!(c, Check::NotEquiv)
}

pub fn is_inconclusive(c: Check) -> bool
    ensures { result ≡ rules.is_inconclusive c }
{
    matches!(c, Check::Inconclusive)
}

pub fn is_conclusive(c: Check) -> bool
    ensures { result ≡ rules.is_conclusive c }
{
    !is_inconclusive(c)
}

// ---- the decision

// Whether they are equivalent, or None where that is undecided. Stands for `unwrap` and `expect`, which panic there
// (document 01, "Port order and changes of shape").
pub fn decided(c: Check) -> Option<bool>
    ensures { result ≡ rules.decided c }
{
    match c {
        Check::Equiv => Some(true),
        Check::NotEquiv => Some(false),
        Check::Inconclusive => None,
    }
}
