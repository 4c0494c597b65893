// Why a vector could not be run: one type with the player's would need its causes and its name as parameters, and a crate of derives for one type is no plainer.
use listing::hex::Fault;
use std::alloc::{AllocError, AllocFailed};
use std::{fmt, io};

#[derive(Drop)]
pub enum Failure {
    Io(io::Error),
    Program(Fault),
    // an interval over a key or a text was refused
    Unopened,
    NoMemory,
}

impl fmt::Display for Failure {
    fn fmt<W: fmt::Write>(&self, f: &mut fmt::Formatter<W>) -> fmt::Result {
        match self {
            Failure::Io(error) => write!(f, "ciphers: {error}"),
            Failure::Program(_) => write!(f, "ciphers: a program that is no hex text"),
            Failure::Unopened => write!(f, "ciphers: an interval that was not opened"),
            Failure::NoMemory => write!(f, "ciphers: out of memory"),
        }
    }
}

impl From<AllocError> for Failure {
    fn from(_error: AllocError) -> Failure {
        Failure::NoMemory
    }
}

impl<T: Drop> From<AllocFailed<T>> for Failure {
    fn from(_refused: AllocFailed<T>) -> Failure {
        Failure::NoMemory
    }
}

impl From<io::Error> for Failure {
    fn from(error: io::Error) -> Failure {
        Failure::Io(error)
    }
}

impl From<Fault> for Failure {
    fn from(fault: Fault) -> Failure {
        Failure::Program(fault)
    }
}
