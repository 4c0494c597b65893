// Logic and shifts: the status register stays as it is.
ghost use Rattle.std.specs.Prelude.{◌≡◌, ℕ};
ghost use Rattle.cpu.specs.Instructions.{marked, byte_of, both_marks, complemented, operated};
ghost use Rattle.cpu.specs.State.{with_register};

use super::state::Core;
use isa::Alu;
use marks::Marked;

impl Core {
    // A byte of two registers, with their joined mark.
    fn combine<F: Fn(u8, u8) -> u8>(&mut self, leaf: F, src: u8, dst: u8)
        requires { F.IsAlwaysCallable leaf }
        ensures { (byte : ℕ) × F.post leaf (byte_of self.old src) (byte_of self.old dst) byte × (self.new ≡ with_register self.old dst (marked byte (both_marks self.old src dst))) }
    {
        let byte = leaf(self.register(src).byte, self.register(dst).byte);
        let mark = self.both_marks(src, dst);
        self.put(dst, Marked { byte, mark });
    }

    // Its one operand gives the mark.
    fn complement(&mut self, src: u8, dst: u8)
        ensures { self.new ≡ complemented self.old src dst }
    {
        let a = self.register(src);
        self.put(
            dst,
            Marked {
                byte: alu::not(a.byte),
                ..a
            },
        );
    }

    // The arithmetic unit on two registers.
    pub(crate) fn alu(&mut self, op: Alu, src: u8, dst: u8)
        ensures { self.new ≡ operated self.old op src dst }
    {
        match op {
            Alu::Add => self.sum(alu::add, src, dst),
            Alu::Sub => self.sum(alu::sub, src, dst),
            Alu::Adc => self.sum_with_carry(alu::adc, src, dst),
            Alu::Sbc => self.sum_with_carry(alu::sbc, src, dst),
            Alu::Not => self.complement(src, dst),
            Alu::And => self.combine(alu::and, src, dst),
            Alu::Lor => self.combine(alu::lor, src, dst),
            Alu::Xor => self.combine(alu::xor, src, dst),
            Alu::Sll => self.combine(alu::sll, src, dst),
            Alu::Rol => self.combine(alu::rol, src, dst),
            Alu::Srl => self.combine(alu::srl, src, dst),
            Alu::Ror => self.combine(alu::ror, src, dst),
        }
    }
}
