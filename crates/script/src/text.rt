// Numbers in hex digits.
ghost use Rattle.std.specs.Prelude.{Some};
ghost use Rattle.script.specs.Text.{hex_text};

use std::fmt;

// A byte, written with two digits.
#[derive(Clone, Copy)]
pub(crate) struct HexByte(pub u8);

impl fmt::Display for HexByte {
    ghost output = { λ x. Some (hex_text 2 x.0) };

    fn fmt<W: fmt::Write>(&self, f: &mut fmt::Formatter<W>) -> fmt::Result {
        // A byte that has a name is known to be below 256; of self.0 the proof has no bound.
        let HexByte(byte) = *self;
        write!(f, "0x{byte:02x}")
    }
}

// A place in a program, which has twelve bits, with three digits: `Address` of isa writes upper case, which one type would need as a parameter.
#[derive(Clone, Copy)]
pub(crate) struct HexPlace(pub u16);

impl fmt::Display for HexPlace {
    ghost output = { λ x. Some (hex_text 3 x.0) };

    fn fmt<W: fmt::Write>(&self, f: &mut fmt::Formatter<W>) -> fmt::Result {
        write!(f, "0x{:03x}", self.0 % 4096)
    }
}
