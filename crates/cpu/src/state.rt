// What the core contains.
ghost use Rattle.std.specs.Prelude.{◌≡◌, Some, slice_index_or, slice_set};
ghost use Rattle.cpu.specs.Names.{mode_name};
ghost use Rattle.cpu.specs.State.{cleared, register, with_register};

use marks::Marked;
use std::fmt;
use units::unit::Status;

// What the core is doing.
#[derive(Clone, Copy, Debug, PartialEq, Eq)]
pub enum Mode {
    Idle,
    Going,
    Waiting,
    Ended,
    Faulted,
}

impl fmt::Display for Mode {
    ghost output = { λ m. Some (mode_name m) };

    fn fmt<W: fmt::Write>(&self, f: &mut fmt::Formatter<W>) -> fmt::Result {
        f.write_str(match self {
            Mode::Idle => "idle",
            Mode::Going => "going",
            Mode::Waiting => "waiting",
            Mode::Ended => "ended",
            Mode::Faulted => "faulted",
        })
    }
}

// What an interrupt saves, and a return from it restores.
#[derive(Clone, Copy)]
pub struct Saved {
    pub pc: u16,
    pub status: Status,
    pub registers: [Marked; 16],
}

// Registers 0 to 7 are r0 to r7, and 8 to 15 are a0 to a7.
#[derive(Clone, Copy)]
pub struct Core {
    pub registers: [Marked; 16],
    pub status: Status,
    pub pc: u16,
    pub sp: u16,
    pub enabled: u16,
    pub vectors: [u8; 16],
    pub latched: u16,
    pub saved: Saved,
    pub pairs: u8,
    pub mode: Mode,
    // No Option of what is saved: that stays after a return from the handler, and a start.
    pub handling: bool,
}

// The n-th of these, or a default past the last.
pub(crate) fn at<T: Copy>(places: &[T], n: usize, default: T) -> T
    ensures { result ≡ slice_index_or places.now n default }
{
    places.get(n).copied().unwrap_or(default)
}

// Replaces the n-th of these, where it is there.
pub(crate) fn put_at<T: Copy>(places: &mut [T], n: usize, value: T)
    ensures { places.new ≡ slice_set places.old n value }
{
    // No get_mut: its contract does not say what the slice is afterwards.
    if n < places.len() {
        places[n] = value;
    }
}

impl Core {
    // The core after a load: everything is nought and unheld, and it is idle.
    pub fn new(pairs: u8) -> Core
        ensures { result ≡ cleared pairs }
    {
        let zero = Marked::unheld(0);
        let status = Status::from(zero);
        Core {
            registers: [zero; 16],
            status,
            pc: 0,
            sp: 0,
            enabled: 0,
            vectors: [0; 16],
            latched: 0,
            saved: Saved {
                pc: 0,
                status,
                registers: [zero; 16],
            },
            pairs,
            mode: Mode::Idle,
            handling: false,
        }
    }

    // Register n.
    pub fn register(&self, n: u8) -> Marked
        ensures { result ≡ register self.now n }
    {
        at(&self.registers, n as usize, Marked::unheld(0))
    }

    // Puts a marked byte into register n.
    pub(crate) fn put(&mut self, n: u8, value: Marked)
        ensures { self.new ≡ with_register self.old n value }
    {
        put_at(&mut self.registers, n as usize, value);
    }
}
