// Loads and stores: the mark goes along with the byte.
ghost use Rattle.std.specs.Prelude.{◌≡◌};
ghost use Rattle.buses.specs.Changes.{Becomes};
ghost use Rattle.cpu.specs.Faults.{or_stop};
ghost use Rattle.cpu.specs.Instructions.{number_in, read_from, written_to, loaded, stored, stepped};
ghost use Rattle.cpu.specs.Outcomes.{told, left};
ghost use Rattle.cpu.specs.Deeds.{Does};

use super::faults::Cause;
use super::state::{Core, at, put_at};
use buses::bus::Bus;
use marks::Marked;

// The byte of a cell.
pub(crate) fn read<B: Bus>(bus: &B, address: u16) -> Result<Marked, Cause>
    ensures { or_stop result ≡ read_from (B.Bus.cells bus.now) address }
{
    bus.read(address)
        .map_err(|refusal| Cause::Bus(refusal, address))
}

// Puts a byte into a cell.
pub(crate) fn write<B: Bus>(bus: &mut B, address: u16, value: Marked) -> Result<(), Cause>
    ensures tells { or_stop result ≡ told (written_to (B.Bus.cells bus.old) address value) }
    ensures becomes { Becomes B.Bus bus.old bus.new (left (B.Bus.cells bus.old) (written_to (B.Bus.cells bus.old) address value)) }
{
    bus.write(address, value)
        .map_err(|refusal| Cause::Bus(refusal, address))
}

impl Core {
    // The number in a pair, if no byte of it is held.
    pub(crate) fn number_in(&self, pair: u8) -> Result<u16, Cause>
        ensures { or_stop result ≡ number_in self.now pair }
    {
        let low = self.register(pair);
        let high = at(&self.registers, pair as usize + 8, Marked::unheld(0));
        if low.mark.join(high.mark).is_held() {
            return Err(Cause::HeldPair);
        }
        Ok(u16::from_le_bytes([low.byte, high.byte]))
    }

    pub(crate) fn ldb<B: Bus>(&mut self, bus: &B, pair: u8, dst: u8) -> Result<(), Cause>
        ensures { Does self.old self.new result (loaded self.old (B.Bus.cells bus.now) pair dst) }
    {
        let address = self.number_in(pair)?;
        let value = read(bus, address)?;
        self.put(dst, value);
        Ok(())
    }

    pub(crate) fn stb<B: Bus>(&self, bus: &mut B, src: u8, pair: u8) -> Result<(), Cause>
        ensures tells { or_stop result ≡ told (stored self.now (B.Bus.cells bus.old) src pair) }
        ensures becomes { Becomes B.Bus bus.old bus.new (left (B.Bus.cells bus.old) (stored self.now (B.Bus.cells bus.old) src pair)) }
    {
        let address = self.number_in(pair)?;
        write(bus, address, self.register(src))
    }

    // The pointer goes up by one within its byte.
    pub(crate) fn advance(&mut self, pair: u8)
        ensures { self.new ≡ stepped self.old pair }
    {
        let pointer = self.register(pair);
        self.put(
            pair,
            Marked {
                byte: pointer.byte.wrapping_add(1),
                ..pointer
            },
        );
    }
}
