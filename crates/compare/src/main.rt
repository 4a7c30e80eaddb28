// Compares two node lists that a user wrote down (document 01, "Comparison and separation"): the comparer's own call on
// their words.
#![tactic(auto)]

mod examples;
mod files;
mod input;
mod refused;
mod two_lists;

use list_files::arguments::argument_count;
use list_files::names_input;
use std::io;
use std::io::Write;

fn write_usage<W: Write>(out: &mut W) -> io::Result<()> {
    out.write_all(
        b"usage: compare FIRST SECOND, two files; or compare -, both lists from standard input, one behind the other\n",
    )?;
    out.write_all(
        b"a list in decimal words: how many node words, the node words, how many pool entries, the pool entries\n",
    )
}

// Without an argument, examples. The program's own name is the first of its arguments.
fn main(rt: HostRuntime) -> io::Result<()> {
    let arguments = argument_count(&rt);
    if arguments == 3 {
        return files::compare_arguments(&rt);
    }
    if arguments == 2 && names_input(&rt, 1) {
        return input::compare_input(&rt);
    }
    if arguments < 2 {
        examples::show(&rt)?;
    }
    write_usage(&mut rt.stdout())
}
