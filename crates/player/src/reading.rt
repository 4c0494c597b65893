// A script is read as a whole before any call is made.
ghost use Rattle.std.specs.Prelude.{◌≡◌, ◌+◌, ◌<◌, ◌^◌, map, MatchResult, if◌then◌else◌};
ghost use Rattle.script.specs.Lines.{said_of};
ghost use Rattle.player.specs.Answers.{Gives, Tells, numbered};
ghost use Rattle.script.specs.Told.{fault_name};
ghost use Rattle.player.specs.Scripts.{script_read, sofar, taken, with_line};
ghost use Rattle.player.specs.Wishes.{asked, usual, wanted_after};

use super::failure::Failure;
use script::faults::{Fault, ReadError};
use script::lines::{Line, is_setting, read_line};
use script::operands::UnitName;
use script::told::fault_text;
use std::alloc::Global;

// A line of a script and its number, from 1.
#[derive(Drop)]
pub struct Numbered {
    pub number: usize,
    pub line: Line,
}

// The lines read so far, and whether one of them is a call.
#[derive(Drop)]
struct Reading {
    lines: Vec<Numbered>,
    number: usize,
    calls: bool,
}

// The machine that a script asks for.
#[derive(Clone, Copy)]
pub struct Wanted {
    pub cells: usize,
    pub page: Option<u8>,
    pub unit: UnitName,
}

// A line that is wrong beside the others.
pub(crate) fn wrong(heap: Global, number: usize, what: &str) -> Failure
    ensures { Tells result number what.now }
{
    format!(in heap; "line {number}: {what}").map_or_else(Failure::from, Failure::Line)
}

// A line that cannot be read: one function of any Display was tried for both, and leaves four goals to its callers.
fn unread(heap: Global, number: usize, fault: Fault) -> Failure
    ensures { Tells result number (fault_name fault) }
{
    fault_text(heap, number, fault).map_or_else(Failure::from, Failure::Line)
}

impl Reading {
    // Adds a line that says something.
    fn add(&mut self, heap: Global, line: Line) -> Result<(), Failure>
        ensures number { self.new.number ≡ self.old.number }
        ensures added { Gives (λ _. sofar self.new) result (with_line (sofar self.old) (said_of line)) }
    {
        let setting = is_setting(&line);
        if setting && self.calls {
            return Err(wrong(heap, self.number, "setting up after a call"));
        }
        self.calls = self.calls || !setting;
        let number = self.number;
        self.lines.push(Numbered { number, line })?;
        Ok(())
    }

    // Reads the next line, whose number is a part of what was read so far: counted outside, the two would have to be tied.
    fn take(&mut self, heap: Global, text: &[u8]) -> Result<(), Failure>
        requires { self.old.number + 1 < 2 ^ 64 }
        ensures number { self.new.number ≡ self.old.number + 1 }
        ensures read { Gives (λ _. sofar self.new) result (taken (sofar self.old) text.now) }
    {
        self.number += 1;
        match read_line(heap, text) {
            Ok(Some(line)) => self.add(heap, line),
            Ok(None) => Ok(()),
            Err(ReadError::Wrong(fault)) => Err(unread(heap, self.number, fault)),
            Err(ReadError::NoMemory) => Err(Failure::NoMemory),
        }
    }
}

// The lines that say something, or the first that cannot be read.
pub fn read_script(heap: Global, text: &[u8]) -> Result<Vec<Numbered>, Failure>
    ensures { Gives (λ v. map numbered v.items) result (script_read text.now) }
{
    let mut reading = Reading {
        lines: Vec::new(heap),
        number: 0,
        calls: false,
    };
    for line in text.split(|byte| *byte == b'\n') {
        reading.take(heap, line)?;
    }
    Ok(reading.lines)
}

// The machine after one line more.
fn asked(heap: Global, wanted: Wanted, line: &Numbered) -> Result<Wanted, Failure>
    ensures { Gives (λ w. w) result (asked wanted line.now.number (said_of line.now.line)) }
{
    match &line.line {
        Line::Memory(cells) if *cells > 65536 => {
            Err(wrong(heap, line.number, "memory of over 65536 cells"))
        }
        Line::Memory(cells) => {
            let cells = *cells as usize;
            Ok(Wanted { cells, ..wanted })
        }
        Line::Board(page) => {
            let page = Some(*page);
            Ok(Wanted { page, ..wanted })
        }
        Line::Unit(unit) => {
            let unit = *unit;
            Ok(Wanted { unit, ..wanted })
        }
        _ => Ok(wanted),
    }
}

// The machine that the lines ask for.
pub fn wanted_machine(heap: Global, lines: &[Numbered]) -> Result<Wanted, Failure>
    ensures { Gives (λ w. w) result (wanted_after usual (map numbered lines.now)) }
{
    let mut wanted = Wanted {
        cells: 65536,
        page: None,
        unit: UnitName::Aes,
    };
    for line in lines {
        wanted = asked(heap, wanted, line)?;
    }
    Ok(wanted)
}
