// Runs of bytes.
#![tactic(auto)]

ghost use Rattle.std.specs.Prelude.{◌≡◌, ◌++◌, take, drop, length};

// Copies to the front of a run what another begins with, as much of it as there is room for.
pub fn copy_front(from: &[u8], to: &mut [u8])
    ensures { to.new ≡ take (length to.old) from.now ++ drop (length from.now) to.old }
{
    let count = if from.len() < to.len() {
        from.len()
    } else {
        to.len()
    };
    // By one index for both runs, which go on in step.
    for i in 0..count {
        to[i] = from[i];
    }
}
