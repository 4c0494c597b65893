// What stops an instruction.

// A cause of the core's own, or the refusal of its word, of its bus at an address or of its unit at a code.
#[derive(Clone, Copy)]
pub enum Cause {
    Word(isa::Refusal),
    NoHandler,
    HeldBranch,
    HeldPair,
    HeldReturn,
    Bus(buses::bus::Refusal, u16),
    Unit(units::unit::Refusal, u8),
}

// What stopped an instruction, and its place in the program.
#[derive(Clone, Copy)]
pub struct Fault {
    pub cause: Cause,
    pub pc: u16,
}
