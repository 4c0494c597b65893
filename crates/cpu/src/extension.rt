// The instruction that asks the extension unit.
ghost use Rattle.cpu.specs.Deeds.{DoesOnUnit};
ghost use Rattle.cpu.specs.Instructions.{extended};
ghost use Rattle.cpu.specs.Machines.{service};

use super::faults::Cause;
use super::state::Core;
use units::unit::{Status, Unit};

impl Core {
    // Answers the cycles to wait.
    pub(crate) fn aluc<U: Unit>(
        &mut self,
        unit: &mut U,
        code: u8,
        src: u8,
        dst: u8,
    ) -> Result<u8, Cause>
        ensures { DoesOnUnit U.Unit dst self.old self.new unit.old unit.new result (extended (service U.Unit unit.old) self.old (U.Unit.contents unit.old) code src dst) }
    {
        let reply = unit
            .operate(code, self.register(src), self.register(dst), self.status)
            .map_err(|refusal| Cause::Unit(refusal, code))?;
        self.put(dst, reply.result);
        if let Some(flags) = reply.flags {
            self.status = Status::from(flags);
        }
        Ok(reply.wait)
    }
}
