// What stopped an instruction, as text.
ghost use Rattle.std.specs.Prelude.{◌≡◌, Some};
ghost use Rattle.cpu.specs.Faults.{stop_of};
ghost use Rattle.script.specs.Answers.{stop_text};

use super::text::HexPlace;
use cpu::faults::{Cause, Fault};
use std::fmt;

// The number of a cause: a match, since a cause carries what was refused and so has no number of its own.
pub(crate) fn cause_number(cause: Cause) -> u8
    ensures { result ≡ (stop_of cause).number }
{
    match cause {
        Cause::Word(refusal) => refusal as u8,
        Cause::NoHandler => 32,
        Cause::HeldBranch => 33,
        Cause::HeldPair => 34,
        Cause::HeldReturn => 35,
        Cause::Bus(refusal, _) => refusal as u8,
        Cause::Unit(refusal, _) => refusal as u8,
    }
}

// A fault that is written: its number, its layer, its place, and what the layer was asked.
#[derive(Clone, Copy)]
pub(crate) struct FaultShown(pub Fault);

impl fmt::Display for FaultShown {
    ghost output = { λ x. Some (stop_text (stop_of x.0.cause) x.0.pc) };

    fn fmt<W: fmt::Write>(&self, f: &mut fmt::Formatter<W>) -> fmt::Result {
        let number = cause_number(self.0.cause);
        let pc = HexPlace(self.0.pc);
        match self.0.cause {
            Cause::Bus(_, address) => {
                write!(f, "fault {number} bus at {pc} address 0x{address:04x}")
            }
            Cause::Unit(_, code) => write!(f, "fault {number} unit at {pc} code {code}"),
            _ => write!(f, "fault {number} core at {pc}"),
        }
    }
}
