// A stop network with a jumper that is soldered and an inverter that nothing reads: what is left of it.
use super::list;
use std::io;
use std::io::Write;

// "Mux (s, a, b)": the jumper is true, and picks v1. The inverter of v2 is not below the root.
pub(crate) fn show(rt: &HostRuntime) -> io::Result<()> {
    let mut out = rt.stdout();
    let mut term = rt.stdout();
    out.write_all(
        b"example: may run, if the door is closed (v0) and, since the jumper is set, ozone is low (v1); v2 is spare\n",
    )?;
    out.write_all(
        b"the canonical list of (AND v0 (MUX true v1 v2)), drawn with a (NOT v2) that nothing reads, and its term:\n",
    )?;
    list::canonicalize(
        &mut out,
        &mut term,
        &[
            3, 0, 0, 0, 1, 0, 3, 1, 0, 3, 2, 0, 8, 0, 1, 5, 1, 3, 6, 4, 2,
        ],
        &[3, 1, 2, 3, 0, 5],
    )
}
