// One list through the verifier, and its line.
ghost use Rattle.std.specs.Prelude.{◌≤◌, length};
ghost use Rattle.list_room.specs.Written.{work_room, Taken};

use list_room::written::work_room;
use meaning::Refusal;
use refusal_text::write_refusal;
use sizes::work_for;
use std::io;
use std::io::Write;
use verifier::verify_expr;

// Writes `verifies`, or the refusal.
pub(crate) fn verify<W: Write>(out: &mut W, nodes: &[u32], pool: &[u32]) -> io::Result<()>
    requires { Taken nodes.now pool.now }
{
    let mut work = work_room();
    match answered(nodes, pool, &mut work) {
        Ok(()) => out.write_all(b"verifies\n"),
        Err(refusal) => write_refusal(out, refusal),
    }
}

// Lends of the work space exactly what number 10 asks.
fn answered(nodes: &[u32], pool: &[u32], work: &mut [u64]) -> Result<(), Refusal>
    requires taken { Taken nodes.now pool.now }
    requires work_room_in_bounds { work_room ≤ length work.old }
{
    let asked = work_for(nodes, pool);
    verify_expr(nodes, pool, &mut work[..asked])
}
