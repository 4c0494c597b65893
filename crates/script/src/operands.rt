// The words that follow the first.
ghost use Rattle.std.specs.Prelude.{◌≡◌, ℕ, List, ◌∷◌, Ok, Result, vec_items};
ghost use Rattle.script.specs.declared.faults.Fault.{Fault};
ghost use Rattle.script.specs.Bytes.{bytes_of};
ghost use Rattle.script.specs.Numbers.{number_up_to};
ghost use Rattle.script.specs.Operands.{seal_of, unit_of};
ghost use Rattle.script.specs.Reads.{Reads};
ghost use Rattle.script.specs.Words.{word_at};
ghost use Rattle.script.specs.Writes.{Adds, u8_text, u16_text, u32_text, unit_text, seal_text};

use super::bytes::read_bytes;
use super::faults::{Fault, ReadError};
use super::numbers::read_number;
use super::words::word_at;
use super::writes::{push_number, push_word};
use std::alloc::{AllocError, Global};
use terminal::interval::Seal;

// The units that a script can name.
#[derive(Clone, Copy, Debug, PartialEq, Eq)]
pub enum UnitName {
    Aes,
    Cham,
}

// A value that a word says, or what is wrong with the word; and how it is written as a word.
pub(crate) trait Operand: Sized {
    ghost said: { List ℕ → Result Self Fault };

    ghost written: { Self → List ℕ };

    fn read(word: &[u8]) -> Result<Self, Fault>
        ensures { result ≡ said word.now };

    fn push_to(self, text: &mut Vec<u8>) -> Result<(), AllocError>
        ensures { Adds text.old.items text.new.items result (32 ∷ written self) };
}

impl Operand for u8 {
    ghost said = { number_up_to 255 };

    ghost written = { u8_text };

    fn read(word: &[u8]) -> Result<u8, Fault> {
        Ok(read_number(word, 255)? as u8)
    }

    fn push_to(self, text: &mut Vec<u8>) -> Result<(), AllocError> {
        push_number(text, &[self])
    }
}

impl Operand for u16 {
    ghost said = { number_up_to 65535 };

    ghost written = { u16_text };

    fn read(word: &[u8]) -> Result<u16, Fault> {
        Ok(read_number(word, 65535)? as u16)
    }

    fn push_to(self, text: &mut Vec<u8>) -> Result<(), AllocError> {
        // by name, the high byte first
        let [high, low] = self.to_be_bytes();
        push_number(text, &[high, low])
    }
}

impl Operand for u32 {
    ghost said = { number_up_to 4294967295 };

    ghost written = { u32_text };

    fn read(word: &[u8]) -> Result<u32, Fault> {
        read_number(word, u32::MAX)
    }

    fn push_to(self, text: &mut Vec<u8>) -> Result<(), AllocError> {
        push_number(text, &self.to_be_bytes())
    }
}

impl Operand for Seal {
    ghost said = { seal_of };

    ghost written = { seal_text };

    fn read(word: &[u8]) -> Result<Seal, Fault> {
        match word {
            b"sealed" => Ok(Seal::Sealed),
            b"practice" => Ok(Seal::Practice),
            _ => Err(Fault::NoSeal),
        }
    }

    fn push_to(self, text: &mut Vec<u8>) -> Result<(), AllocError> {
        // Words of its own: Display into a Vec of bytes fails with an io error.
        match self {
            Seal::Sealed => push_word(text, b"sealed"),
            Seal::Practice => push_word(text, b"practice"),
        }
    }
}

impl Operand for UnitName {
    ghost said = { unit_of };

    ghost written = { unit_text };

    fn read(word: &[u8]) -> Result<UnitName, Fault> {
        match word {
            b"aes" => Ok(UnitName::Aes),
            b"cham" => Ok(UnitName::Cham),
            _ => Err(Fault::NoUnit),
        }
    }

    fn push_to(self, text: &mut Vec<u8>) -> Result<(), AllocError> {
        // Words of its own, as for a seal.
        match self {
            UnitName::Aes => push_word(text, b"aes"),
            UnitName::Cham => push_word(text, b"cham"),
        }
    }
}

// What the word that so many stand before says.
pub(crate) fn operand_at<T: Operand>(text: &[u8], n: usize) -> Result<T, Fault>
    ensures { result ≡ T.said (word_at n text.now) }
{
    T::read(word_at(text, n))
}

pub(crate) fn bytes_at(heap: Global, text: &[u8], n: usize) -> Result<Vec<u8>, ReadError>
    ensures { Reads vec_items result (bytes_of (word_at n text.now)) }
{
    read_bytes(heap, word_at(text, n))
}

// A word as a name.
pub(crate) fn name_at(heap: Global, text: &[u8], n: usize) -> Result<Vec<u8>, ReadError>
    ensures { Reads vec_items result (Ok (word_at n text.now)) }
{
    Ok(Vec::from_slice(heap, word_at(text, n))?)
}
