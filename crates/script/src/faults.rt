// Why a line of a script is not read; each From says which case it gives, which those of a derive would not.
ghost use Rattle.std.specs.Prelude.{◌≡◌, Some};
ghost use Rattle.script.specs.declared.faults.ReadError.TheVariants.{Wrong, NoMemory};
ghost use Rattle.script.specs.Told.{fault_name};

use std::alloc::{AllocError, AllocFailed};
use std::fmt;

// What is wrong with a line.
#[derive(Clone, Copy, Debug, PartialEq, Eq)]
pub enum Fault {
    UnknownWord,
    MissingWord,
    ExtraWord,
    NoNumber,
    TooLarge,
    NoBytes,
    NoSeal,
    NoUnit,
}

impl fmt::Display for Fault {
    ghost output = { λ fault. Some (fault_name fault) };

    fn fmt<W: fmt::Write>(&self, f: &mut fmt::Formatter<W>) -> fmt::Result {
        f.write_str(match self {
            Fault::UnknownWord => "unknown word",
            Fault::MissingWord => "a word is missing",
            Fault::ExtraWord => "a word too many",
            Fault::NoNumber => "a word that is no number",
            Fault::TooLarge => "a number that is too large",
            Fault::NoBytes => "a word that is no pairs of hex digits",
            Fault::NoSeal => "a word that is neither sealed nor practice",
            Fault::NoUnit => "a word that is neither aes nor cham",
        })
    }
}

// Why a line is not read: it is wrong, or memory did not suffice.
#[derive(Clone, Copy, Debug, PartialEq, Eq)]
pub enum ReadError {
    Wrong(Fault),
    NoMemory,
}

impl From<Fault> for ReadError {
    ghost from_gives = { λ fault error. error ≡ Wrong fault };

    fn from(fault: Fault) -> ReadError {
        ReadError::Wrong(fault)
    }
}

impl From<AllocError> for ReadError {
    ghost from_gives = { λ _ error. error ≡ NoMemory };

    fn from(_error: AllocError) -> ReadError {
        ReadError::NoMemory
    }
}

impl<T: Drop> From<AllocFailed<T>> for ReadError {
    ghost from_gives = { λ _ error. error ≡ NoMemory };

    fn from(_refused: AllocFailed<T>) -> ReadError {
        ReadError::NoMemory
    }
}
