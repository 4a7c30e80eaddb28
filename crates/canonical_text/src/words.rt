// A list as decimal words with their counts in front (`list_texts` reads them again): how many node words, the node
// words, how many pool entries, the entries.
ghost use Rattle.std.specs.Prelude.{◌<◌};

use meaning::limits::WORDS_PER_NODE;
use std::io;
use std::io::Write;

const ENTRIES_PER_LINE: usize = 16;

// A node a line
pub fn write_words<W: Write>(out: &mut W, nodes: &[u32], pool: &[u32]) -> io::Result<()> {
    write_counted(out, nodes, WORDS_PER_NODE)?;
    write_counted(out, pool, ENTRIES_PER_LINE)
}

// How many there are, alone on a line, and then the words, so many to a line.
fn write_counted<W: Write>(out: &mut W, words: &[u32], per_line: usize) -> io::Result<()>
    requires { 0 < per_line }
{
    let count = words.len();
    write!(out, "{count}")?;
    for (place, word) in words.iter().enumerate() {
        write_word(out, *word, place % per_line == 0)?;
    }
    out.write_all(b"\n")
}

fn write_word<W: Write>(out: &mut W, word: u32, begins_line: bool) -> io::Result<()> {
    if begins_line {
        out.write_all(b"\n")?;
    } else {
        out.write_all(b" ")?;
    }
    write!(out, "{word}")
}
