// Two outputs of one stop network, a list for each: one for each judgement.
use super::list;
use std::io;
use std::io::Write;

// The run signal is v2, bit 2 of the marks.
const VARIABLES: u32 = 3;

const START_HELD: u32 = 4;

pub(crate) fn show(rt: &HostRuntime) -> io::Result<()> {
    rt.stdout().write_all(
        b"example: ozone is high (v0), stop is pressed (v1), start is held (v2), which is the run signal\n",
    )?;
    show_stop(rt)?;
    show_horn(rt)
}

// The rows of v0 = 0, v1 = 0 alone are 0: rows 0 and 1, since "the first operand is the most significant bit".
fn show_stop(rt: &HostRuntime) -> io::Result<()> {
    rt.stdout().write_all(
        b"the stop output, if ozone is high or stop is pressed (LUT 252 v0 v1 v2): ",
    )?;
    list::separate_list(
        rt,
        &[1, 252, 0, 3, 0, 0, 3, 1, 0, 3, 2, 0, 9, 0, 4],
        &[0, 1, 2, 3],
        VARIABLES,
        START_HELD,
    )?;
    rt.stdout().write_all(b"start's wire runs into the table, and no row depends on it\n")
}

fn show_horn(rt: &HostRuntime) -> io::Result<()> {
    rt.stdout().write_all(
        b"the horn output, which is silent while start is held (NOR v2 (NOR v0 v1)): ",
    )?;
    list::separate_list(
        rt,
        &[3, 0, 0, 3, 1, 0, 3, 2, 0, 4, 0, 2, 4, 2, 2],
        &[0, 1, 2, 3],
        VARIABLES,
        START_HELD,
    )?;
    rt.stdout().write_all(b"ozone is high there, and holding start silences the horn\n")
}
