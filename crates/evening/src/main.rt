// Plays one evening at the tote, the demonstration, as `hokster play evening.txt` does.
#![tactic(auto)]

use endings::ending;
use player::failure::Failure;
use player::play::play;
use std::fs;
use std::process::ExitCode;

// Plays the script in the file of the demonstration.
fn run(rt: &HostRuntime) -> Result<(), Failure> {
    let text = fs::read(rt, "evening.txt")?;
    play(rt, text.as_slice())
}

fn main(rt: HostRuntime) -> ExitCode {
    ending(&rt, run(&rt))
}
