// Writes the canonical list of a node list that a user wrote down (document 01, "Canonical list"): the canonicaliser's
// own call on the list's words.
#![tactic(auto)]

mod examples;
mod list;
mod source;

use list_files::arguments::argument_count;
use std::io;
use std::io::Write;

fn write_usage<W: Write>(out: &mut W) -> io::Result<()> {
    out.write_all(b"usage: canonicalize FILE, the file of one list, or - for standard input\n")?;
    out.write_all(
        b"the canonical list is written to standard output, and as a term to standard error, a node a line:\n",
    )?;
    out.write_all(
        b"n3: (LUT n0 n1 n2) is node 3, and its children are the nodes 0, 1 and 2; a number alone is a Program\n",
    )?;
    out.write_all(
        b"a list in decimal words: how many node words, the node words, how many pool entries, the pool entries\n",
    )
}

// Without an argument, an example. The program's own name is the first of its arguments.
fn main(rt: HostRuntime) -> io::Result<()> {
    let arguments = argument_count(&rt);
    if arguments == 2 {
        return source::canonicalize_source(&rt);
    }
    if arguments < 2 {
        examples::show(&rt)?;
    }
    write_usage(&mut rt.stdout())
}
