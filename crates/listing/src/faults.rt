// What is told of a text that is no program.
ghost use Rattle.std.specs.Prelude.{◌≡◌, ◌-◌, ◌^◌, ◌<◌, IfOk, Some, string_bytes};
ghost use Rattle.listing.specs.Faults.{place_text, advanced, place_of, found_text, fault_text};

use super::hex::Fault;
use std::alloc::{AllocError, Global};
use std::fmt;

// A place in a text: the lines before it, and the characters before it in its line.
#[derive(Clone, Copy, Debug, Default, PartialEq, Eq)]
pub struct Place {
    pub line: usize,
    pub column: usize,
}

// Lines and columns are told from 1.
impl fmt::Display for Place {
    ghost output = { λ p. Some (place_text p) };

    fn fmt<W: fmt::Write>(&self, f: &mut fmt::Formatter<W>) -> fmt::Result {
        let line = self.line as u128 + 1;
        let column = self.column as u128 + 1;
        write!(f, "line {line}, column {column}")
    }
}

// A byte that was found: in quotes where it can be printed, else by its number.
#[derive(Clone, Copy)]
struct Found(u8);

impl fmt::Display for Found {
    ghost output = { λ x. Some (found_text x.0) };

    fn fmt<W: fmt::Write>(&self, f: &mut fmt::Formatter<W>) -> fmt::Result {
        let byte = self.0;
        if byte.is_ascii_graphic() {
            let printed = byte as char;
            write!(f, "'{printed}'")
        } else {
            write!(f, "byte 0x{byte:02X}")
        }
    }
}

impl Place {
    // The place after one character more.
    fn after(self, b: u8) -> Place
        requires line { self.line < 2 ^ 64 - 1 }
        requires column { self.column < 2 ^ 64 - 1 }
        ensures { result ≡ advanced self b }
    {
        if b == b'\n' {
            Place {
                line: self.line + 1,
                column: 0,
            }
        } else {
            Place {
                line: self.line,
                column: self.column + 1,
            }
        }
    }
}

// The place of the character at an offset.
pub fn place_of(text: &[u8], at: usize) -> Place
    ensures { result ≡ place_of text.now at }
{
    let mut place = Place::default();
    for b in &text[..at.min(text.len())] {
        place = place.after(*b);
    }
    place
}

// A fault in one line, with its place where it has one.
pub fn fault_text(heap: Global, text: &[u8], fault: Fault) -> Result<String, AllocError>
    ensures { IfOk result (λ t. string_bytes t ≡ fault_text text.now fault) }
{
    match fault {
        Fault::NoDigit { at, byte } => {
            format!(in heap; "{}: {} is no hex digit", place_of(text, at), Found(byte))
        }
        Fault::OddDigits { at } => {
            format!(in heap;
                "{}: an odd number of digits, this one is left over",
                place_of(text, at)
            )
        }
        Fault::TooLong { at } => {
            format!(in heap; "{}: more than 4096 bytes", place_of(text, at))
        }
        Fault::NoMemory => String::from_str(heap, "out of memory"),
    }
}
