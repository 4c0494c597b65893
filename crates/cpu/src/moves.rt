// Instructions that move a value.
ghost use Rattle.std.specs.Prelude.{◌≡◌};
ghost use Rattle.cpu.specs.Instructions.{stack_set, vector_set, moved, constant_set};

use super::state::{Core, put_at};
use marks::Marked;

impl Core {
    pub(crate) fn mvs(&mut self, top: u16)
        ensures { self.new ≡ stack_set self.old top }
    {
        self.sp = top.wrapping_sub(1);
    }

    pub(crate) fn mvv(&mut self, handler: u16, vector: u8)
        ensures { self.new ≡ vector_set self.old handler vector }
    {
        put_at(
            &mut self.vectors,
            vector as usize,
            (handler / 16 % 256) as u8,
        );
    }

    pub(crate) fn mov(&mut self, src: u8, dst: u8)
        ensures { self.new ≡ moved self.old src dst }
    {
        let value = self.register(src);
        self.put(dst, value);
    }

    pub(crate) fn mvi(&mut self, byte: u8, dst: u8)
        ensures { self.new ≡ constant_set self.old byte dst }
    {
        self.put(dst, Marked::unheld(byte));
    }
}
