// Verifies a node list that a user wrote down (document 01, "Verification"): the verifier's own call on a file's words.
#![tactic(auto)]

mod examples;
mod file;
mod list;

use list_files::arguments::argument_count;
use std::io;
use std::io::Write;

fn write_usage<W: Write>(out: &mut W) -> io::Result<()> {
    out.write_all(
        b"usage: verify FILE, a list in decimal words: how many node words, the node words, how many pool entries, the pool entries\n",
    )
}

// Without an argument, examples. The program's own name is the first of its arguments.
fn main(rt: HostRuntime) -> io::Result<()> {
    let arguments = argument_count(&rt);
    if arguments == 2 {
        return file::verify_argument(&rt);
    }
    let mut out = rt.stdout();
    if arguments < 2 {
        examples::show(&mut out)?;
    }
    write_usage(&mut out)
}
