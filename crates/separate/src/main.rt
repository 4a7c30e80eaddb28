// Separates the run signals of a node list that a user wrote down from what it answers (document 01, "Comparison and
// separation"): the separator's own call on the list's words, with the marks that the user names.
#![tactic(auto)]

mod examples;
mod list;
mod signals;
mod source;
mod words;

use list_files::arguments::argument_count;
use signals::marks_of_arguments;
use source::separate_source;
use std::io;
use std::io::Write;
use words::number_of_argument;

fn write_usage<W: Write>(out: &mut W) -> io::Result<()> {
    out.write_all(
        b"usage: separate FILE N V.., the file of one list, or - for standard input; how many variables it has,\n",
    )?;
    out.write_all(
        b"v0 and on, 30 at most; and the number of each variable that is a run signal, if there are any\n",
    )?;
    out.write_all(
        b"a list in decimal words: how many node words, the node words, how many pool entries, the pool entries\n",
    )
}

// The numbers are read first, so that a list is looked at only if there is something to ask of it.
fn separate_arguments(rt: &HostRuntime, arguments: usize) -> io::Result<()> {
    let Some(n) = number_of_argument(rt, 2, b"N") else {
        return Ok(());
    };
    let Some(marks) = marks_of_arguments(rt, arguments) else {
        return Ok(());
    };
    separate_source(rt, n, marks)
}

// Without an argument, examples. The program's own name is the first of its arguments.
fn main(rt: HostRuntime) -> io::Result<()> {
    let arguments = argument_count(&rt);
    if arguments > 2 {
        return separate_arguments(&rt, arguments);
    }
    if arguments < 2 {
        examples::show(&rt)?;
    }
    write_usage(&mut rt.stdout())
}
