// Numbers that stand on the command line. What is wrong with one is written to standard error, so that standard output
// has the separator's answer alone.
ghost use Rattle.std.specs.Prelude.{◌≡◌};
ghost use Rattle.separate.specs.Numbers as numbers;

use list_files::buffer;
use list_texts::rest_from;
use list_words::next_entry;
use std::env::Env;
use std::io;
use std::io::Write;

// The number that an argument is; or none, and the message is written. The name says what it stands for. Nobody asks for an
// argument that is missing.
pub(crate) fn number_of_argument(rt: &HostRuntime, i: usize, name: &[u8]) -> Option<u32> {
    let mut argument = buffer();
    match rt.arg(i, &mut argument) {
        Ok(n) => told_number(&mut rt.stderr(), name, &argument[..n]),
        Err(_) => {
            let _ = write_too_long(&mut rt.stderr(), name);
            None
        }
    }
}

fn told_number<W: Write>(err: &mut W, name: &[u8], text: &[u8]) -> Option<u32> {
    let number = number_in(text);
    if number.is_none() {
        let _ = write_bad(err, name, text);
    }
    number
}

// The one word of a text, with nothing but blanks around it.
#[tactic(auto, unfolding(crate::specs::Numbers::number_in))]
fn number_in(text: &[u8]) -> Option<u32>
    ensures { result ≡ numbers.number_in text.now }
{
    let Ok(word) = next_entry(text, 0) else {
        return None;
    };
    match rest_from(text, word.next) {
        Ok(true) => Some(word.value),
        Ok(false) => None,
        Err(_) => None,
    }
}

fn write_bad<W: Write>(err: &mut W, name: &[u8], text: &[u8]) -> io::Result<()> {
    err.write_all(name)?;
    err.write_all(b" \"")?;
    err.write_all(text)?;
    err.write_all(b"\": no decimal number below 2^32\n")
}

fn write_too_long<W: Write>(err: &mut W, name: &[u8]) -> io::Result<()> {
    err.write_all(name)?;
    err.write_all(b": an argument too long to be a decimal number below 2^32\n")
}
