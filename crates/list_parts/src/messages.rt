// What is wrong with a text, a line each: the name of the text, what it is, and the offset of the byte to look at.
use std::io;
use std::io::Write;

// The end of a text is bad where a word is owed.
pub(crate) fn write_bad<W: Write>(
    err: &mut W,
    name: &[u8],
    text: &[u8],
    offset: usize,
) -> io::Result<()> {
    write_name(err, name)?;
    if offset == text.len() {
        err.write_all(b"the list is not whole: the text ends at offset ")?;
    } else {
        err.write_all(b"no list of decimal words below 2^32: see offset ")?;
    }
    write_offset(err, offset)
}

pub(crate) fn write_left_over<W: Write>(err: &mut W, name: &[u8], offset: usize) -> io::Result<()> {
    write_name(err, name)?;
    err.write_all(b"words left over behind the list, which ends at offset ")?;
    write_offset(err, offset)
}

// The offset is behind the count.
pub(crate) fn write_too_many<W: Write>(
    err: &mut W,
    name: &[u8],
    words: usize,
    entries: usize,
    offset: usize,
) -> io::Result<()> {
    write_name(err, name)?;
    write!(
        err,
        "a list of more than {words} node words or {entries} pool entries"
    )?;
    err.write_all(b", which this program has no room for: see the count before offset ")?;
    write_offset(err, offset)
}

fn write_name<W: Write>(err: &mut W, name: &[u8]) -> io::Result<()> {
    err.write_all(name)?;
    err.write_all(b": ")
}

fn write_offset<W: Write>(err: &mut W, offset: usize) -> io::Result<()> {
    writeln!(err, "{offset}")
}
