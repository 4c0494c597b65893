// What a call may be refused for, and what it answers.
ghost use Rattle.std.specs.Prelude.{◌≡◌};
ghost use Rattle.terminal.specs.declared.calls.Unmade.TheVariants as unmade;

use super::interval::{Interval, Seal};
use cpu::machine::Run;
use cpu::state::Mode;

// Why a call is refused, each cause by its number.
#[derive(Clone, Copy, Debug, PartialEq, Eq)]
pub enum Refusal {
    ProgramLength = 1,
    PairsRange = 2,
    LineRange = 3,
    RegisterRange = 4,
    IntervalRange = 5,
    OffsetRange = 6,
    BudgetRange = 7,
    AbsentCell = 20,
    BoardCell = 21,
    HeldByte = 22,
    NoProgram = 23,
    NotRunning = 24,
}

// An interval that was not closed, handed back.
#[derive(Drop)]
pub struct Unclosed {
    pub refusal: Refusal,
    pub interval: Interval,
}

// Where a terminal stands.
#[derive(Clone, Copy)]
pub struct Standing {
    pub mode: Mode,
    pub pc: u16,
    pub sp: u16,
    pub enabled: u16,
    pub latched: u16,
    pub handling: bool,
}

// A call of a list; entries borrow their interval, and a close takes it.
#[derive(Drop)]
pub enum Call<'i> {
    // the number of saved pairs, the program
    Load(u8, Vec<u8>),
    Start,
    // the line
    Raise(u8),
    // the budget
    Run(u32),
    // the address, the byte
    Put(u16, u8),
    // the first cell, the count
    Open(Seal, u16, u16),
    // the offset, the byte
    Entry(&'i Interval, u16, u8),
    Close(Interval),
    // the address
    Cell(u16),
    // the number, 16 for the status register
    Register(u8),
    Status,
}

// What a call of a list answers.
#[derive(Drop)]
pub enum Answer {
    Done,
    Opened(Interval),
    Ran(Run),
    Byte(u8),
    Stands(Standing),
}

// Why a call of a list was not made; a close that is refused hands its interval back.
#[derive(Drop)]
pub enum Unmade {
    Refused(Refusal),
    Unclosed(Unclosed),
}

impl From<Refusal> for Unmade {
    ghost from_gives = { λ refusal why. why ≡ unmade.Refused refusal };

    fn from(refusal: Refusal) -> Unmade {
        Unmade::Refused(refusal)
    }
}

impl From<Unclosed> for Unmade {
    ghost from_gives = { λ unclosed why. why ≡ unmade.Unclosed unclosed };

    fn from(unclosed: Unclosed) -> Unmade {
        Unmade::Unclosed(unclosed)
    }
}
