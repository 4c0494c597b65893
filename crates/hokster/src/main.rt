// hokster list FILE: lists the instructions of a program. hokster play FILE: plays a script of calls.
#![tactic(auto)]

use endings::ending;
use listing::faults::fault_text;
use listing::hex::read_hex;
use listing::lines::listing_text;
use player::failure::Failure;
use player::play::play;
use std::io::Read;
use std::process::ExitCode;
use std::{env, fs};

const USAGE: &str = "use: hokster list FILE, or hokster play FILE";

// The bytes of standard input.
fn input(rt: &HostRuntime) -> Result<Vec<u8>, Failure> {
    let mut bytes = Vec::new(rt.alloc());
    let _ = rt.stdin().read_to_end(&mut bytes)?;
    Ok(bytes)
}

// The bytes of a file. A match, since try_map_err would want the type of its closure's failure written out.
fn file(rt: &HostRuntime, path: &str) -> Result<Vec<u8>, Failure> {
    match fs::read(rt, path) {
        Ok(bytes) => Ok(bytes),
        Err(error) => Err(Failure::Told(format!(in rt.alloc(); "{path}: {error}")?)),
    }
}

// Prints the listing of the program in a file, all of it or what is wrong with the file.
fn list(rt: &HostRuntime, path: &str) -> Result<(), Failure> {
    let heap = rt.alloc();
    let text = file(rt, path)?;
    match read_hex(heap, text.as_slice()) {
        Ok(program) => {
            rt.print(listing_text(heap, program.as_slice())?)?;
            Ok(())
        }
        Err(fault) => {
            let told = fault_text(heap, text.as_slice(), fault)?;
            Err(Failure::Told(format!(in heap; "{path}: {told}")?))
        }
    }
}

// Plays the script in a file, or in standard input where the path is `-`.
fn play_file(rt: &HostRuntime, path: &str) -> Result<(), Failure> {
    let text = if path == "-" {
        input(rt)?
    } else {
        file(rt, path)?
    };
    play(rt, text.as_slice())
}

// Does what the arguments ask for.
fn run(rt: &HostRuntime) -> Result<(), Failure> {
    let heap = rt.alloc();
    let words: Vec<String> = env::args(rt)?.collect(heap)?;
    match words.as_slice() {
        [_, command, path] if command.as_str() == "list" => list(rt, path.as_str()),
        [_, command, path] if command.as_str() == "play" => play_file(rt, path.as_str()),
        [_, command, ..] if command.as_str() == "list" || command.as_str() == "play" => Err(
            Failure::Told(format!(in heap; "{command} takes one file; {USAGE}")?),
        ),
        [_, command, ..] => Err(Failure::Told(format!(in heap;
            "unknown command '{command}'; {USAGE}"
        )?)),
        _ => Err(Failure::Told(format!(in heap; "no command; {USAGE}")?)),
    }
}

fn main(rt: HostRuntime) -> ExitCode {
    ending(&rt, run(&rt))
}
