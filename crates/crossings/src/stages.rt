// How far each stage goes. A stage tries all assignments of its variables, those of the stages before it among them, so
// the stages are cut from the last variable down, STAGE of those below the root to each: then all before the last have
// together a fifteenth of its assignments, and a crossing costs at most some seventeen times what lies below it. The
// promise is only that the stages get on; the answer does not depend on where they end (specs/Stages).
ghost use Rattle.std.specs.Prelude.{◌<◌, ◌≤◌};

// So many variables more in each stage.
const STAGE: u32 = 4;

// The first place past this one with fewer stages still to come, at most n.
pub(crate) fn next_stage(inputs: u64, places: usize, n: usize) -> usize
    requires { (places < n) × (n ≤ 64) }
    ensures { (places < result) × (result ≤ n) }
{
    let stages = stages_above(inputs, places);
    (places + 1..n)
        .find(|&next| stages_above(inputs, next) < stages)
        .unwrap_or(n)
}

// How many stages the variables at or above a place make.
fn stages_above(inputs: u64, place: usize) -> u32
    requires { place < 64 }
{
    (inputs >> place).count_ones().div_ceil(STAGE)
}
