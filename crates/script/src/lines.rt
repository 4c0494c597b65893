// The lines of a script.
ghost use Rattle.std.specs.Prelude.{◌≡◌};
ghost use Rattle.script.specs.Lines.{said_of, optional, entry_said, opened_said, operands_said, count_said, line_said};
ghost use Rattle.script.specs.Reads.{Reads};
ghost use Rattle.script.specs.Settings.{is_setting};

use super::faults::{Fault, ReadError};
use super::operands::{UnitName, bytes_at, name_at, operand_at};
use super::verbs::{Verb, verb_of};
use super::words::word_at;
use std::alloc::Global;
use terminal::interval::Seal;

// What a line says: a setting of the machine, or a call.
#[derive(Drop)]
pub enum Line {
    // the number of cells
    Memory(u32),
    // the first address, the bytes; two words of the script, so two variants
    Bytes(u16, Vec<u8>),
    // the first address, the bytes
    Held(u16, Vec<u8>),
    // the page
    Board(u8),
    Unit(UnitName),
    // the number of saved pairs, the program
    Load(u8, Vec<u8>),
    Start,
    // the line
    Raise(u8),
    // the budget
    Run(u32),
    // the address, the byte
    Put(u16, u8),
    // the name, the seal, the first cell, the count
    Open(Vec<u8>, Seal, u16, u16),
    // the name, the offset, the byte
    Entry(Vec<u8>, u16, u8),
    // the name
    Close(Vec<u8>),
    // the address
    Cell(u16),
    // the number
    Register(u8),
    Status,
}

// The functions from here on take the heap beside the text, since a type of both would only be taken apart again.
fn read_entry(heap: Global, text: &[u8]) -> Result<Line, ReadError>
    ensures { Reads said_of result (entry_said text.now) }
{
    let offset = operand_at(text, 2)?;
    let byte = operand_at(text, 3)?;
    let name = name_at(heap, text, 1)?;
    Ok(Line::Entry(name, offset, byte))
}

fn read_open(heap: Global, text: &[u8]) -> Result<Line, ReadError>
    ensures { Reads said_of result (opened_said text.now) }
{
    let seal = operand_at(text, 2)?;
    let first = operand_at(text, 3)?;
    let count = operand_at(text, 4)?;
    let name = name_at(heap, text, 1)?;
    Ok(Line::Open(name, seal, first, count))
}

// The line of a verb and what follows it.
fn read_operands(heap: Global, verb: Verb, text: &[u8]) -> Result<Line, ReadError>
    ensures { Reads said_of result (operands_said verb text.now) }
{
    match verb {
        Verb::Memory => Ok(Line::Memory(operand_at(text, 1)?)),
        Verb::Bytes => Ok(Line::Bytes(operand_at(text, 1)?, bytes_at(heap, text, 2)?)),
        Verb::Held => Ok(Line::Held(operand_at(text, 1)?, bytes_at(heap, text, 2)?)),
        Verb::Board => Ok(Line::Board(operand_at(text, 1)?)),
        Verb::Unit => Ok(Line::Unit(operand_at(text, 1)?)),
        Verb::Load => Ok(Line::Load(operand_at(text, 1)?, bytes_at(heap, text, 2)?)),
        Verb::Start => Ok(Line::Start),
        Verb::Raise => Ok(Line::Raise(operand_at(text, 1)?)),
        Verb::Run => Ok(Line::Run(operand_at(text, 1)?)),
        Verb::Put => Ok(Line::Put(operand_at(text, 1)?, operand_at(text, 2)?)),
        Verb::Open => read_open(heap, text),
        Verb::Entry => read_entry(heap, text),
        Verb::Close => Ok(Line::Close(name_at(heap, text, 1)?)),
        Verb::Cell => Ok(Line::Cell(operand_at(text, 1)?)),
        Verb::Register => Ok(Line::Register(operand_at(text, 1)?)),
        Verb::Status => Ok(Line::Status),
    }
}

// Whether as many words follow the first as should.
fn check_count(verb: Verb, text: &[u8]) -> Result<(), Fault>
    ensures { result ≡ count_said verb text.now }
{
    let count = verb.operand_count();
    if word_at(text, count).is_empty() {
        return Err(Fault::MissingWord);
    }
    if !word_at(text, count + 1).is_empty() {
        return Err(Fault::ExtraWord);
    }
    Ok(())
}

// What a line says; nothing if it has no word.
pub fn read_line(heap: Global, text: &[u8]) -> Result<Option<Line>, ReadError>
    ensures { Reads optional result (line_said text.now) }
{
    let first = word_at(text, 0);
    if first.is_empty() {
        return Ok(None);
    }
    let verb = verb_of(first).ok_or(Fault::UnknownWord)?;
    check_count(verb, text)?;
    let line = read_operands(heap, verb, text)?;
    Ok(Some(line))
}

// Whether a line sets the machine up, before any call.
pub fn is_setting(line: &Line) -> bool
    ensures { result ≡ is_setting (said_of line.now) }
{
    match line {
        Line::Memory(_) | Line::Bytes(..) | Line::Held(..) | Line::Board(_) | Line::Unit(_) => true,
        _ => false,
    }
}
