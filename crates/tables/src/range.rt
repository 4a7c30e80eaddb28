// The range test with which each routine begins.
ghost use Rattle.std.specs.Prelude.{◌≡◌, is_ok};

use meaning::OutOfRange;

// "else 13": goes on where the test holds.
pub(crate) fn in_range(holds: bool) -> Result<(), OutOfRange>
    ensures { is_ok result ≡ holds }
{
    if holds { Ok(()) } else { Err(OutOfRange) }
}
