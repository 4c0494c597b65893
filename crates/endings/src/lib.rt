// How a program ends: well, or with a line on standard error that says why not.
#![tactic(auto)]

ghost use Rattle.std.specs.Prelude.{◌≡◌};
ghost use Rattle.std.specs.Process.{exit_status};
ghost use Rattle.endings.specs.Endings.{status_of};

use std::fmt;
use std::process::ExitCode;

// The status of a program that came to this.
pub fn ending<E: fmt::Display + Drop>(rt: &HostRuntime, outcome: Result<(), E>) -> ExitCode
    ensures { exit_status result ≡ status_of outcome }
{
    match outcome {
        Ok(()) => ExitCode::SUCCESS,
        Err(failure) => {
            // where standard error takes nothing, the status still tells
            let _ = eprintln!(rt; "{failure}");
            ExitCode::FAILURE
        }
    }
}
