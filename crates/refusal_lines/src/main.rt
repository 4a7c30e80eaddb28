// Writes the line of every refusal, at node 9: a test of `refusal_text`, by the recorded output. Document 01's table
// ends with 19; 15 to 18 and 20 are not in it.
#![tactic(auto)]

use meaning::Refusal;
use refusal_text::write_refusal;
use std::io;

const PAST_THE_TABLE: u32 = 20;

fn main(rt: HostRuntime) -> io::Result<()> {
    let mut out = rt.stdout();
    for number in 0..=PAST_THE_TABLE {
        write_refusal(&mut out, Refusal { number, node: 9 })?;
    }
    Ok(())
}
