// A stop network drawn with gates, its lookup table, the table with one row wrong, and the table on another wire: one for
// each verdict.
use super::two_lists;
use std::io;
use std::io::Write;

pub(crate) fn show(rt: &HostRuntime) -> io::Result<()> {
    rt.stdout().write_all(
        b"example: may run, if the door is closed (v0) and neither ozone is high (v1) nor stop is pressed (v2)\n",
    )?;
    show_table(rt)?;
    show_wrong_table(rt)?;
    show_other_wire(rt)
}

// The row of v0 = 1, v1 = 0, v2 = 0 alone is 1: row 4, since "the first operand is the most significant bit".
fn show_table(rt: &HostRuntime) -> io::Result<()> {
    rt.stdout().write_all(b"the gates (AND v0 (NOR v1 v2)) and their table (LUT 16 v0 v1 v2): ")?;
    two_lists::compare(
        rt,
        &[3, 0, 0, 3, 1, 0, 3, 2, 0, 4, 0, 2, 6, 2, 2],
        &[1, 2, 0, 3],
        &[1, 16, 0, 3, 0, 0, 3, 1, 0, 3, 2, 0, 9, 0, 4],
        &[0, 1, 2, 3],
    )
}

// Row 5 is 1 too: stop is pressed, and the table runs on.
fn show_wrong_table(rt: &HostRuntime) -> io::Result<()> {
    rt.stdout().write_all(b"the gates and a table with one row wrong (LUT 48 v0 v1 v2): ")?;
    two_lists::compare(
        rt,
        &[3, 0, 0, 3, 1, 0, 3, 2, 0, 4, 0, 2, 6, 2, 2],
        &[1, 2, 0, 3],
        &[1, 48, 0, 3, 0, 0, 3, 1, 0, 3, 2, 0, 9, 0, 4],
        &[0, 1, 2, 3],
    )?;
    rt.stdout()
        .write_all(b"stop is pressed there, and the table runs on\n")
}

// v3 is not below the first root, so nothing drives it.
fn show_other_wire(rt: &HostRuntime) -> io::Result<()> {
    rt.stdout().write_all(b"the gates and the table on another wire (LUT 16 v0 v1 v3): ")?;
    two_lists::compare(
        rt,
        &[3, 0, 0, 3, 1, 0, 3, 2, 0, 4, 0, 2, 6, 2, 2],
        &[1, 2, 0, 3],
        &[1, 16, 0, 3, 0, 0, 3, 1, 0, 3, 3, 0, 9, 0, 4],
        &[0, 1, 2, 3],
    )?;
    rt.stdout()
        .write_all(b"nothing drives v3, which the gates do not have\n")
}
