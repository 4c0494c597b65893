// What every unit does, and the laws that it keeps.
ghost use Rattle.std.specs.Prelude.{◌≡◌, ℕ, ◌<◌, Bool, true, if◌then◌else◌, Ok, Err};
ghost use Rattle.units.specs.declared.unit.Reply.{Reply};
ghost use Rattle.units.specs.Meaning.{Contents, Operands, Meaning, operands, plain, SameLengths};
ghost use Rattle.units.specs.Laws.{Quiet, IdleMarks, Clean};
ghost use Rattle.units.specs.Numbers.{numbered};
ghost use Rattle.units.specs.Registers.{status_of};

use marks::Marked;

// The status register: four user flags, then X, C, N and Z, each four with one mark.
#[derive(Clone, Copy)]
pub struct Status {
    pub high: Marked,
    pub low: Marked,
}

// The status register of a byte: both groups have its mark.
impl From<Marked> for Status {
    ghost from_gives = { λ m s. s ≡ status_of m };

    fn from(value: Marked) -> Status {
        Status {
            high: Marked {
                byte: value.byte / 16,
                ..value
            },
            low: Marked {
                byte: value.byte % 16,
                ..value
            },
        }
    }
}

// What an operation answers: a byte, the cycles to wait, and all eight flags if it sets them.
#[derive(Clone, Copy)]
pub struct Reply {
    pub result: Marked,
    pub wait: u8,
    pub flags: Option<Marked>,
}

impl Reply {
    // An answer that sets no flags.
    pub(crate) fn plain(byte: Marked, wait: u8) -> Reply
        ensures { result ≡ plain byte wait }
    {
        Reply {
            result: byte,
            wait,
            flags: None,
        }
    }
}

// Why a unit refuses, each cause by its number.
#[derive(Clone, Copy, Debug, PartialEq, Eq)]
pub enum Refusal {
    LackingCode = 26,
}

// A unit, by its contents, its codes, and what its sort makes of contents and operands.
pub trait Unit {
    ghost contents: { Self → Contents };

    ghost codes: { Self → ℕ → Bool };

    ghost operates: { Meaning };

    // The code is a number, since each unit reads that field of the instruction word in its own way.
    fn operate(&mut self, code: u8, a: Marked, b: Marked, status: Status) -> Result<Reply, Refusal>
        ensures told { numbered result ≡ (if codes self.old code then Ok (operates (codes self.old) code (contents self.old) (operands a b status)).0 else Err 26) }
        ensures contents { contents self.new ≡ (if codes self.old code then (operates (codes self.old) code (contents self.old) (operands a b status)).1 else contents self.old) }
        ensures codes { codes self.new ≡ codes self.old }
        ensures lengths { SameLengths (contents self.old) (contents self.new) };

    ghost quiet: { Quiet operates };

    ghost idle: { IdleMarks operates };

    ghost clean: { Clean operates };

    ghost few: { (s : Self) (k : ℕ) → codes s k ≡ true → k < 16 };
}
