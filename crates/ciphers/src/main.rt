// Runs whole ciphers as programs of the core, and prints each with its outcome.
#![tactic(auto)]

mod ciphers;
mod failure;

use ciphers::all_ciphers;
use endings::ending;
use failure::Failure;
use std::process::ExitCode;
use tally::Tally;

// All of them, and the count.
fn run(rt: &HostRuntime) -> Result<(), Failure> {
    let mut tally = Tally::default();
    all_ciphers(rt, &mut tally)?;
    println!(rt; "{tally}")?;
    Ok(())
}

fn main(rt: HostRuntime) -> ExitCode {
    ending(&rt, run(&rt))
}
