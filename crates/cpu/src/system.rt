// Calls to the hall's own system.
ghost use Rattle.std.specs.Prelude.{◌≡◌};
ghost use Rattle.cpu.specs.Instructions.{ordered, said_by};

use super::state::{Core, Mode};

impl Core {
    // Answers the byte that is said to the system, if it is one. By ranges of the byte, as the word carries it: any byte is a call.
    pub(crate) fn sys(&mut self, byte: u8) -> Option<u8>
        ensures said { result ≡ said_by byte }
        ensures core { self.new ≡ ordered self.old byte }
    {
        match byte {
            0x10..=0x1F => {
                self.latched &= !(1 << (byte - 0x10));
                None
            }
            0xFF => {
                self.mode = Mode::Ended;
                None
            }
            _ => Some(byte),
        }
    }
}
