// Branches, calls of subroutines and returns.
ghost use Rattle.std.specs.Prelude.{◌≡◌};
ghost use Rattle.cpu.specs.Faults.{or_stop};
ghost use Rattle.cpu.specs.Instructions.{branched, called, returned, steered, Writable};
ghost use Rattle.cpu.specs.Deeds.{Does, DoesOnBus};

use super::faults::Cause;
use super::memory::{read, write};
use super::state::Core;
use buses::bus::{Bus, Kind, Refusal};
use isa::Flag;
use marks::Marked;

// Whether an unheld byte can be written to a cell.
fn writable<B: Bus>(bus: &B, address: u16) -> Result<(), Cause>
    ensures { Writable (B.Bus.cells bus.now) address (or_stop result) }
{
    match bus.kind(address) {
        Kind::Absent => Err(Cause::Bus(Refusal::AbsentCell, address)),
        Kind::Plain | Kind::Board => Ok(()),
    }
}

impl Core {
    // A held flag stops the branch, whether or not it would be taken.
    pub(crate) fn branch(&mut self, flag: Flag, target: u16) -> Result<(), Cause>
        ensures { Does self.old self.new result (branched self.old flag target) }
    {
        if self.status.low.mark.is_held() {
            return Err(Cause::HeldBranch);
        }
        if self.is_set(flag) {
            self.pc = target;
        }
        Ok(())
    }

    // Both cells are asked before one is written.
    pub(crate) fn jsr<B: Bus>(&mut self, bus: &mut B, target: u16) -> Result<(), Cause>
        ensures { DoesOnBus B.Bus self.old self.new bus.old bus.new result (called self.old (B.Bus.cells bus.old) target) }
    {
        let first = self.sp;
        let second = first.wrapping_sub(1);
        writable(bus, first)?;
        writable(bus, second)?;
        let [low, high] = self.pc.to_le_bytes();
        write(bus, first, Marked::unheld(high))?;
        write(bus, second, Marked::unheld(low))?;
        self.sp = second.wrapping_sub(1);
        self.pc = target;
        Ok(())
    }

    // The first byte is checked fully before the second.
    pub(crate) fn ret<B: Bus>(&mut self, bus: &B) -> Result<(), Cause>
        ensures { Does self.old self.new result (returned self.old (B.Bus.cells bus.now)) }
    {
        let first = self.sp.wrapping_add(1);
        let second = first.wrapping_add(1);
        let low = read(bus, first)?.shown().ok_or(Cause::HeldReturn)?;
        let high = read(bus, second)?.shown().ok_or(Cause::HeldReturn)?;
        self.sp = second;
        self.pc = u16::from_le_bytes([low, high % 16]);
        Ok(())
    }
}
