// The stack grows downwards, and sp is the cell that the next byte goes to.
ghost use Rattle.std.specs.Prelude.{◌≡◌, if◌then◌else◌, is_ok};
ghost use Rattle.cpu.specs.Deeds.{DoesOnBus};
ghost use Rattle.cpu.specs.Faults.{or_stop};
ghost use Rattle.cpu.specs.Instructions.{pushed, top, risen, status_byte};

use super::faults::Cause;
use super::memory::{read, write};
use super::state::Core;
use buses::bus::Bus;
use marks::Marked;

impl Core {
    // The status register as a byte, with the joined mark of its groups: a question to the core, and so no From.
    pub fn status_byte(&self) -> Marked
        ensures { result ≡ status_byte self.now.status }
    {
        let high = self.status.high;
        let low = self.status.low;
        Marked {
            byte: high.byte.wrapping_mul(16).wrapping_add(low.byte),
            mark: high.mark.join(low.mark),
        }
    }

    // Into the cell at sp, which then goes down.
    pub(crate) fn push<B: Bus>(&mut self, bus: &mut B, value: Marked) -> Result<(), Cause>
        ensures { DoesOnBus B.Bus self.old self.new bus.old bus.new result (pushed self.old (B.Bus.cells bus.old) value) }
    {
        write(bus, self.sp, value)?;
        self.sp = self.sp.wrapping_sub(1);
        Ok(())
    }

    // The byte in the cell above sp, where sp then is.
    pub(crate) fn pop<B: Bus>(&mut self, bus: &B) -> Result<Marked, Cause>
        ensures told { or_stop result ≡ top self.old (B.Bus.cells bus.now) }
        ensures core { self.new ≡ (if is_ok result then risen self.old else self.old) }
    {
        let above = self.sp.wrapping_add(1);
        let value = read(bus, above)?;
        self.sp = above;
        Ok(value)
    }
}
