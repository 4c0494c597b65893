// Taking an interrupt, returning from it, and the lines that are enabled.
ghost use Rattle.std.specs.Prelude.{◌≡◌};
ghost use Rattle.cpu.specs.Instructions.{enabled_read, enabled_set, pairs_copied, resumed};
ghost use Rattle.cpu.specs.Interrupts.{lowest, due, taken, LowestDue};
ghost use Rattle.cpu.specs.Deeds.{Does};

use super::faults::Cause;
use super::state::{Core, Mode, at, put_at};
use marks::Marked;

// The lowest line in a set of lines.
fn lowest(lines: u16) -> Option<u8>
    ensures { result ≡ lowest 16 0 lines }
{
    if lines == 0 {
        return None;
    }
    Some(lines.trailing_zeros() as u8)
}

// Copies the first pairs of one set of registers into another: by number, since slices would have to be cut to fit, which is no plainer.
fn copy_pairs(pairs: u8, source: &[Marked], target: &mut [Marked])
    ensures { target.new ≡ pairs_copied pairs source.now target.old }
{
    for pair in 0..pairs as usize {
        put_at(target, pair, at(source, pair, Marked::unheld(0)));
        put_at(target, pair + 8, at(source, pair + 8, Marked::unheld(0)));
    }
}

impl Core {
    // The line that is taken next: in no handler, the lowest that is both latched and enabled.
    pub(crate) fn due(&self) -> Option<u8>
        ensures line { result ≡ due self.now }
        ensures lowest { LowestDue self.now result }
    {
        if self.handling {
            return None;
        }
        lowest(self.latched & self.enabled)
    }

    // Saves pc, sr and the pairs, and goes on in the line's handler.
    pub(crate) fn take(&mut self, line: u8)
        ensures { self.new ≡ taken self.old line }
    {
        copy_pairs(self.pairs, &self.registers, &mut self.saved.registers);
        self.saved.pc = self.pc;
        self.saved.status = self.status;
        self.pc = at(&self.vectors, line as usize, 0) as u16 * 16;
        self.mode = Mode::Going;
        self.handling = true;
    }

    pub(crate) fn rti(&mut self) -> Result<(), Cause>
        ensures { Does self.old self.new result (resumed self.old) }
    {
        if !self.handling {
            return Err(Cause::NoHandler);
        }
        copy_pairs(self.pairs, &self.saved.registers, &mut self.registers);
        self.status = self.saved.status;
        self.pc = self.saved.pc;
        self.handling = false;
        Ok(())
    }

    pub(crate) fn rie(&mut self, pair: u8)
        ensures { self.new ≡ enabled_read self.old pair }
    {
        let [low, high] = self.enabled.to_le_bytes();
        self.put(pair, Marked::unheld(low));
        put_at(&mut self.registers, pair as usize + 8, Marked::unheld(high));
    }

    pub(crate) fn sie(&mut self, pair: u8) -> Result<(), Cause>
        ensures { Does self.old self.new result (enabled_set self.old pair) }
    {
        self.enabled = self.number_in(pair)?;
        Ok(())
    }
}
