// Two lists of document 01 ("Panel bench examples"): one that verifies and one that does not.
use super::list;
use std::io;
use std::io::Write;

pub(crate) fn show<W: Write>(out: &mut W) -> io::Result<()> {
    show_and(out)?;
    show_argument(out)
}

// And(v0, v1) as a Lut of program 8
fn show_and<W: Write>(out: &mut W) -> io::Result<()> {
    out.write_all(b"example (LUT 8 v0 v1): ")?;
    list::verify(out, &[1, 8, 0, 3, 0, 0, 3, 1, 0, 9, 0, 3], &[0, 1, 2])
}

// "Arg index 0 at the root fails"
fn show_argument<W: Write>(out: &mut W) -> io::Result<()> {
    out.write_all(b"example (ARG 0): ")?;
    list::verify(out, &[1, 0, 0, 15, 0, 1], &[0])
}
