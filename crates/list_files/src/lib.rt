// Texts and lists from files: what a program that takes lists on its command line reads them with. A caller brings the
// places, and is told that the list stands at their start, so that it can be lent on (list_parts, specs/Parts, `Held`);
// what a file holds no contract can say. Where there is no list, the reason is on standard error. A reason that can't be
// written changes no answer, since there is nobody left to tell.
#![tactic(auto)]

pub mod arguments;
mod messages;

ghost use Rattle.std.specs.Prelude.{◌≡◌};
ghost use Rattle.list_parts.specs.Parts as parts;
ghost use Rattle.io.specs.Counts.{IsPrefixLen};
ghost use Rattle.list_files.specs.Texts as texts;

pub use io::{buffer, large_buffer};
use list_parts::{ListAt, ends, find_list};
use messages::{write_failure, write_no_argument, write_no_name, write_too_long};
use std::env::Env;
use std::fs::File;
use std::io::{Read, Write};
use std::str;

// Is that argument `-`, which stands for standard input?
pub fn names_input(rt: &impl Env, i: usize) -> bool {
    let mut argument = buffer();
    matches!(rt.arg(i, &mut argument), Ok(1)) && argument[0] == b'-'
}

// The list that is alone in the file which an argument names, or on standard input.
pub fn list_of_source(
    rt: &HostRuntime,
    i: usize,
    nodes: &mut [u32],
    pool: &mut [u32],
) -> Option<ListAt>
    ensures { parts.Held nodes.new pool.new result }
{
    if names_input(rt, i) {
        let mut input = rt.stdin();
        let mut err = rt.stderr();
        return list_of_file(&mut input, &mut err, b"standard input", nodes, pool);
    }
    list_of_argument(rt, i, nodes, pool)
}

// The list that is alone in the file which an argument names; or none, and the message is written.
pub fn list_of_argument(
    rt: &HostRuntime,
    i: usize,
    nodes: &mut [u32],
    pool: &mut [u32],
) -> Option<ListAt>
    ensures { parts.Held nodes.new pool.new result }
{
    let mut path = buffer();
    match rt.arg(i, &mut path) {
        Ok(n) => list_of_path(rt, &path[..n], nodes, pool),
        Err(why) => {
            let _ = write_no_argument(&mut rt.stderr(), why);
            None
        }
    }
}

// A file is opened by a name that is text; another one is refused, since no call of the library takes it.
fn list_of_path(
    rt: &HostRuntime,
    path: &[u8],
    nodes: &mut [u32],
    pool: &mut [u32],
) -> Option<ListAt>
    ensures { parts.Held nodes.new pool.new result }
{
    match str::from_utf8(path) {
        Ok(name) => list_of_name(rt, name, nodes, pool),
        Err(_) => {
            let _ = write_no_name(&mut rt.stderr(), path);
            None
        }
    }
}

fn list_of_name(rt: &HostRuntime, name: &str, nodes: &mut [u32], pool: &mut [u32]) -> Option<ListAt>
    ensures { parts.Held nodes.new pool.new result }
{
    let mut err = rt.stderr();
    match File::open(rt, name) {
        Ok(mut file) => list_of_file(&mut file, &mut err, name.as_bytes(), nodes, pool),
        Err(why) => {
            let _ = write_failure(&mut err, name.as_bytes(), &why);
            None
        }
    }
}

fn list_of_file<R: Read, W: Write>(
    source: &mut R,
    err: &mut W,
    name: &[u8],
    nodes: &mut [u32],
    pool: &mut [u32],
) -> Option<ListAt>
    ensures { parts.Held nodes.new pool.new result }
{
    let mut text = large_buffer();
    let n = read_text(source, err, name, &mut text)?;
    list_alone(err, name, &text[..n], nodes, pool)
}

fn list_alone<W: Write>(
    err: &mut W,
    name: &[u8],
    text: &[u8],
    nodes: &mut [u32],
    pool: &mut [u32],
) -> Option<ListAt>
    ensures { parts.Held nodes.new pool.new result }
{
    let list = find_list(err, name, text, 0, nodes, pool)?;
    if ends(err, name, text, list.next) {
        Some(list)
    } else {
        None
    }
}

// All that a source holds, at the start of what is lent: so many bytes; or there is no text, and the message is written.
// One read more than fills it tells the source's end from a read that failed and from a source that goes on.
pub fn read_text<R: Read, W: Write>(
    source: &mut R,
    err: &mut W,
    name: &[u8],
    text: &mut [u8],
) -> Option<usize>
    ensures { texts.Lendable text.new result }
{
    let length = read_full(source, text);
    let mut behind = [0u8; 1];
    match source.read(&mut behind) {
        Ok(0) => Some(length),
        Ok(_) => {
            let _ = write_too_long(err, name, length);
            None
        }
        Err(why) => {
            let _ = write_failure(err, name, &why);
            None
        }
    }
}

// Reads until the places are full, the source ends or a read fails, and answers how many bytes it put at their start.
fn read_full<R: Read>(source: &mut R, text: &mut [u8]) -> usize
    ensures { IsPrefixLen result text.new }
{
    let mut done = 0;
    while done < text.len() {
        match source.read(&mut text[done..]) {
            Ok(0) | Err(_) => break,
            Ok(n) => done += n,
        }
    }
    done
}
