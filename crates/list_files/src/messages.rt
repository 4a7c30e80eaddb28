// Why there is no text to be read, a line each: what failed, as a caller names it, and why.
use std::env::FillError;
use std::io::{Cursor, Write};
use std::{io, str};

// Room for what the system says of an error
const WORDS_ROOM: usize = 256;

pub(crate) fn write_no_argument<W: Write>(err: &mut W, why: FillError) -> io::Result<()> {
    match why {
        FillError::NotPresent => err.write_all(b"FILE: Invalid argument\n"),
        FillError::TooLong => err.write_all(b"FILE: File name too long\n"),
    }
}

pub(crate) fn write_no_name<W: Write>(err: &mut W, path: &[u8]) -> io::Result<()> {
    err.write_all(path)?;
    err.write_all(b": a file name that is not UTF-8, which this program can not open\n")
}

// The system's words for an error, without its number.
pub(crate) fn write_failure<W: Write>(err: &mut W, what: &[u8], why: &io::Error) -> io::Result<()> {
    let mut words = Cursor::new([0u8; WORDS_ROOM]);
    let _ = write!(words, "{why}");
    err.write_all(what)?;
    err.write_all(b": ")?;
    write_words(err, &words.into_inner())?;
    err.write_all(b"\n")
}

// What stands in front of the zeros that were not written over.
fn write_words<W: Write>(err: &mut W, room: &[u8]) -> io::Result<()> {
    let words = str::from_utf8(room).unwrap_or("");
    err.write_all(without_number(words).as_bytes())
}

// An error of the system ends in its number: "No such file or directory (os error 2)".
fn without_number(words: &str) -> &str {
    match words.split_once(" (os error ") {
        Some((front, _)) => front,
        None => words.trim_end_matches('\0'),
    }
}

pub(crate) fn write_too_long<W: Write>(err: &mut W, name: &[u8], length: usize) -> io::Result<()> {
    err.write_all(name)?;
    writeln!(
        err,
        ": a text of more than {length} bytes, which this program has no room for"
    )
}
