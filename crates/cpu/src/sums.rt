// Sums and differences: a result and the low flags, with the joined mark of what they were worked out from.
ghost use Rattle.std.specs.Prelude.{◌≡◌, ℕ};
ghost use Rattle.isa.specs.declared.Flag.TheVariants.{Carry};
ghost use Rattle.cpu.specs.Instructions.{summed, is_set, byte_of, both_marks, three_marks};
ghost use Rattle.cpu.specs.State.{register};

use super::state::Core;
use isa::Flag;
use marks::{Mark, Marked};
use units::unit::Status;

impl Core {
    // Whether a flag of the low group is set.
    pub(crate) fn is_set(&self, flag: Flag) -> bool
        ensures { result ≡ is_set self.now flag }
    {
        let flags = self.status.low.byte;
        match flag {
            Flag::Zero => flags % 2 == 1,
            Flag::Negative => flags / 2 % 2 == 1,
            Flag::Carry => flags / 4 % 2 == 1,
            Flag::Overflow => flags / 8 % 2 == 1,
        }
    }

    // The joined mark of two registers.
    pub(crate) fn both_marks(&self, src: u8, dst: u8) -> Mark
        ensures { result ≡ both_marks self.now src dst }
    {
        self.register(src).mark.join(self.register(dst).mark)
    }

    // The same, with the low mark.
    fn three_marks(&self, src: u8, dst: u8) -> Mark
        ensures { result ≡ three_marks self.now src dst }
    {
        let rest = self.register(dst).mark.join(self.status.low.mark);
        self.register(src).mark.join(rest)
    }

    // Puts a result into a register and its flags into the low group.
    fn settle(&mut self, dst: u8, mark: Mark, byte: u8, flags: u8)
        ensures { self.new ≡ summed self.old dst mark (byte, flags) }
    {
        self.put(dst, Marked { byte, mark });
        self.status = Status {
            high: self.status.high,
            low: Marked { byte: flags, mark },
        };
    }

    // A sum or a difference of two registers.
    pub(crate) fn sum<F: Fn(u8, u8) -> (u8, u8)>(&mut self, leaf: F, src: u8, dst: u8)
        requires { F.IsAlwaysCallable leaf }
        ensures { (answer : ℕ × ℕ) × F.post leaf (byte_of self.old src) (byte_of self.old dst) answer × (self.new ≡ summed self.old dst (both_marks self.old src dst) answer) }
    {
        let (byte, flags) = leaf(self.register(src).byte, self.register(dst).byte);
        self.settle(dst, self.both_marks(src, dst), byte, flags);
    }

    // One that also goes by C.
    pub(crate) fn sum_with_carry<F: Fn(u8, u8, bool) -> (u8, u8)>(
        &mut self,
        leaf: F,
        src: u8,
        dst: u8,
    )
        requires { F.IsAlwaysCallable leaf }
        ensures { (answer : ℕ × ℕ) × F.post leaf (byte_of self.old src) (byte_of self.old dst) (is_set self.old Carry) answer × (self.new ≡ summed self.old dst (three_marks self.old src dst) answer) }
    {
        let carry = self.is_set(Flag::Carry);
        let (byte, flags) = leaf(self.register(src).byte, self.register(dst).byte, carry);
        self.settle(dst, self.three_marks(src, dst), byte, flags);
    }

    // A sum or a difference of a register and an immediate.
    pub(crate) fn sum_with_amount<F: Fn(u8, u8) -> (u8, u8)>(
        &mut self,
        leaf: F,
        amount: u8,
        dst: u8,
    )
        requires { F.IsAlwaysCallable leaf }
        ensures { (answer : ℕ × ℕ) × F.post leaf (byte_of self.old dst) amount answer × (self.new ≡ summed self.old dst (register self.old dst).mark answer) }
    {
        let a = self.register(dst);
        let (byte, flags) = leaf(a.byte, amount);
        self.settle(dst, a.mark, byte, flags);
    }
}
