// A betting interval that is open.
ghost use Rattle.std.specs.Prelude.{◌≡◌, ◌<◌};
ghost use Rattle.buses.specs.Changes.{Becomes};
ghost use Rattle.terminal.specs.Numbers.{numbered};
ghost use Rattle.terminal.specs.Terminals.{cells_entered, cells_of, checked, is_plain, left, lifted, mark_of, told};

use super::calls::Refusal;
use buses::bus::{Bus, Kind};
use marks::{Mark, Marked};

// Whether the bets of an interval are held until its close.
#[derive(Clone, Copy, Debug, PartialEq, Eq)]
pub enum Seal {
    Sealed,
    Practice,
}

// The mark of an entry.
impl From<Seal> for Mark {
    ghost from_gives = { λ seal mark. mark ≡ mark_of seal };

    fn from(seal: Seal) -> Mark {
        match seal {
            Seal::Sealed => Mark::Held,
            Seal::Practice => Mark::Unheld,
        }
    }
}

// An open interval: it moves, and its close uses it up.
#[derive(Drop)]
pub struct Interval {
    pub(crate) seal: Seal,
    pub(crate) first: u16,
    pub(crate) count: u16,
}

// Only a plain cell lies in an interval.
fn plain<B: Bus>(bus: &B, address: u16) -> Result<(), Refusal>
    ensures { numbered result ≡ is_plain (B.Bus.cells bus.now address) }
{
    match bus.kind(address) {
        Kind::Absent => Err(Refusal::AbsentCell),
        Kind::Plain => Ok(()),
        Kind::Board => Err(Refusal::BoardCell),
    }
}

impl Interval {
    // Refuses an interval at the first of its cells that is not plain.
    pub(crate) fn check<B: Bus>(&self, bus: &B) -> Result<(), Refusal>
        ensures { numbered result ≡ checked (B.Bus.cells bus.now) (cells_of self.now) }
    {
        for offset in 0..self.count {
            plain(bus, self.first.wrapping_add(offset))?;
        }
        Ok(())
    }

    // Puts a byte into one of the cells.
    pub(crate) fn enter<B: Bus>(
        &self,
        bus: &mut B,
        offset: u16,
        value: Marked,
    ) -> Result<(), Refusal>
        requires { offset < self.now.count }
        ensures told { numbered result ≡ told (cells_entered (B.Bus.cells bus.old) self.now.first self.now.count offset value) }
        ensures bus { Becomes B.Bus bus.old bus.new (left (B.Bus.cells bus.old) (cells_entered (B.Bus.cells bus.old) self.now.first self.now.count offset value)) }
    {
        self.check(bus)?;
        bus.write(self.first.wrapping_add(offset), value)
            .map_err(|_| Refusal::AbsentCell)
    }

    // Lifts the bytes of all cells.
    pub(crate) fn lift<B: Bus>(&self, bus: &mut B)
        ensures { Becomes B.Bus bus.old bus.new (lifted (B.Bus.cells bus.old) (cells_of self.now)) }
    {
        for offset in 0..self.count {
            let _ = bus.lift(self.first.wrapping_add(offset));
        }
    }
}
