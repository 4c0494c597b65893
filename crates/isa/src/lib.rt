// Instruction words of the HOKSTER core: what a word says, and how it is written.
#![tactic(auto)]

ghost use Rattle.std.specs.Prelude.{◌≡◌, ◌<◌, true};
ghost use Rattle.isa.specs.Laws.{ReadsBack, WritesBack};
ghost use Rattle.isa.specs.Numbers.{numbered};
ghost use Rattle.isa.specs.Table.{decoded, encoded, fits, word_of, length_of, branch_opcode, alu_opcode, with_address};

mod text;

// A flag of the status register that a branch asks for, by the upper nibble of that branch.
#[derive(Clone, Copy, Debug, PartialEq, Eq)]
pub enum Flag {
    Zero = 4,
    Negative = 5,
    Carry = 6,
    Overflow = 7,
}

// An operation of the arithmetic unit on two registers, by the lower nibble of its first byte.
#[derive(Clone, Copy, Debug, PartialEq, Eq)]
pub enum Alu {
    Add = 0,
    Sub = 1,
    And = 2,
    Lor = 3,
    Sll = 4,
    Rol = 5,
    Srl = 6,
    Ror = 7,
    Not = 10,
    Xor = 11,
    Adc = 12,
    Sbc = 13,
}

// An instruction, its operands in the order that a programmer writes: registers 0 to 7 are r0 to r7, 8 to 15 are a0 to a7, and pair i is a_i and r_i.
#[derive(Clone, Copy, PartialEq, Eq)]
pub enum Instruction {
    // one above the new stack pointer
    Mvs(u16),
    // the handler's address, the vector
    Mvv(u16, u8),
    // the address to go on at, here and in the next two
    Jmp(u16),
    Jsr(u16),
    Branch(Flag, u16),
    // the byte, the destination
    Mvi(u8, u8),
    // the source, the destination
    Alu(Alu, u8, u8),
    // the amount, the destination
    Adi(u8, u8),
    Sbi(u8, u8),
    // the code, the source, the destination
    Aluc(u8, u8, u8),
    // the source, the destination
    Mov(u8, u8),
    // the pair with the address, the destination
    Ldb(u8, u8),
    Lpb(u8, u8),
    // the source, the pair with the address
    Stb(u8, u8),
    Spb(u8, u8),
    Ret,
    Str,
    Lsr,
    // the pair
    Rie(u8),
    Sie(u8),
    Hlt,
    Rti,
    // the byte that is said
    Sys(u8),
    // the register
    Psh(u8),
    Pop(u8),
}

// The bytes of an instruction.
#[derive(Clone, Copy, Debug, PartialEq, Eq)]
pub enum Word {
    One(u8),
    Two(u8, u8),
}

// Why a word or an instruction is refused, each cause by its number.
#[derive(Clone, Copy, Debug, PartialEq, Eq)]
pub enum Refusal {
    OperandOutOfField = 10,
    MissingByte = 30,
    ReservedWord = 31,
}

// What the word that begins with these bytes says, `second` counting in a word of two alone: one match over byte ranges, as the project has it for the decoder.
pub fn decode(first: Option<u8>, second: Option<u8>) -> Result<Instruction, Refusal>
    ensures told { numbered result ≡ decoded first second }
    ensures written_back { WritesBack first second (numbered result) }
{
    let Some(first) = first else {
        return Err(Refusal::MissingByte);
    };
    let low = first % 16;
    let operand = second.unwrap_or(0);
    let address = u16::from_be_bytes([low, operand]);
    let src = operand / 16;
    let dst = operand % 16;
    match first {
        0x90..=0x9F if low == 8 || low == 9 => Err(Refusal::ReservedWord),
        0xB0..=0xBF | 0xF0..=0xFF => Err(Refusal::ReservedWord),
        0xC0..=0xCF if low >= 10 && low <= 14 => Err(Refusal::ReservedWord),
        0xC0..=0xCF if low == 3 => Ok(Instruction::Ret),
        0xC0..=0xCF if low == 4 => Ok(Instruction::Str),
        0xC0..=0xCF if low == 5 => Ok(Instruction::Lsr),
        0xC0..=0xCF if low == 8 => Ok(Instruction::Hlt),
        0xC0..=0xCF if low == 9 => Ok(Instruction::Rti),
        0xD0..=0xDF => Ok(Instruction::Psh(low)),
        0xE0..=0xEF => Ok(Instruction::Pop(low)),
        // every other word has two bytes
        _ if second.is_none() => Err(Refusal::MissingByte),
        0x00..=0x0F => Ok(Instruction::Mvs(address * 16)),
        0x10..=0x1F => Ok(Instruction::Mvv(operand as u16 * 16, low)),
        0x20..=0x2F => Ok(Instruction::Jmp(address)),
        0x30..=0x3F => Ok(Instruction::Jsr(address)),
        0x40..=0x4F => Ok(Instruction::Branch(Flag::Zero, address)),
        0x50..=0x5F => Ok(Instruction::Branch(Flag::Negative, address)),
        0x60..=0x6F => Ok(Instruction::Branch(Flag::Carry, address)),
        0x70..=0x7F => Ok(Instruction::Branch(Flag::Overflow, address)),
        0x80..=0x8F => Ok(Instruction::Mvi(operand, low)),
        0x90..=0x9F if low == 0 => Ok(Instruction::Alu(Alu::Add, src, dst)),
        0x90..=0x9F if low == 1 => Ok(Instruction::Alu(Alu::Sub, src, dst)),
        0x90..=0x9F if low == 2 => Ok(Instruction::Alu(Alu::And, src, dst)),
        0x90..=0x9F if low == 3 => Ok(Instruction::Alu(Alu::Lor, src, dst)),
        0x90..=0x9F if low == 4 => Ok(Instruction::Alu(Alu::Sll, src, dst)),
        0x90..=0x9F if low == 5 => Ok(Instruction::Alu(Alu::Rol, src, dst)),
        0x90..=0x9F if low == 6 => Ok(Instruction::Alu(Alu::Srl, src, dst)),
        0x90..=0x9F if low == 7 => Ok(Instruction::Alu(Alu::Ror, src, dst)),
        0x90..=0x9F if low == 10 => Ok(Instruction::Alu(Alu::Not, src, dst)),
        0x90..=0x9F if low == 11 => Ok(Instruction::Alu(Alu::Xor, src, dst)),
        0x90..=0x9F if low == 12 => Ok(Instruction::Alu(Alu::Adc, src, dst)),
        0x90..=0x9F if low == 13 => Ok(Instruction::Alu(Alu::Sbc, src, dst)),
        0x90..=0x9F if low == 14 => Ok(Instruction::Adi(src + 1, dst)),
        0x90..=0x9F => Ok(Instruction::Sbi(src + 1, dst)),
        0xA0..=0xAF => Ok(Instruction::Aluc(low, src, dst)),
        0xC0..=0xCF if low == 0 => Ok(Instruction::Mov(src, dst)),
        0xC0..=0xCF if low == 1 && src < 8 => Ok(Instruction::Ldb(src, dst)),
        0xC0..=0xCF if low == 1 => Ok(Instruction::Lpb(src - 8, dst)),
        0xC0..=0xCF if low == 2 && dst < 8 => Ok(Instruction::Stb(src, dst)),
        0xC0..=0xCF if low == 2 => Ok(Instruction::Spb(src, dst - 8)),
        0xC0..=0xCF if low == 6 => Ok(Instruction::Rie(src % 8)),
        0xC0..=0xCF if low == 7 => Ok(Instruction::Sie(src % 8)),
        0xC0..=0xCF => Ok(Instruction::Sys(operand)),
    }
}

// The word of an instruction, or a refusal where an operand lies outside its field.
pub fn encode(instruction: Instruction) -> Result<Word, Refusal>
    ensures told { numbered result ≡ encoded instruction }
    ensures read_back { ReadsBack instruction (numbered result) }
{
    if instruction.operands_fit() {
        Ok(instruction.word())
    } else {
        Err(Refusal::OperandOutOfField)
    }
}

impl Instruction {
    // How many bytes its word has.
    pub fn length(self) -> u8
        ensures { result ≡ length_of self }
    {
        match self {
            Instruction::Ret
            | Instruction::Str
            | Instruction::Lsr
            | Instruction::Hlt
            | Instruction::Rti => 1,
            Instruction::Psh(..) | Instruction::Pop(..) => 1,
            _ => 2,
        }
    }

    fn operands_fit(self) -> bool
        ensures { result ≡ fits self }
    {
        match self {
            Instruction::Mvs(top) => top % 16 == 0,
            Instruction::Mvv(handler, vector) => handler % 16 == 0 && handler < 4096 && vector < 16,
            Instruction::Jmp(target) | Instruction::Jsr(target) | Instruction::Branch(_, target) =>
                target < 4096,
            Instruction::Mvi(_, dst) => dst < 16,
            Instruction::Alu(_, src, dst) | Instruction::Mov(src, dst) => src < 16 && dst < 16,
            Instruction::Adi(amount, dst) | Instruction::Sbi(amount, dst) => dst < 16
                && (1..=16).contains(&amount),
            Instruction::Aluc(code, src, dst) => code < 16 && src < 16 && dst < 16,
            Instruction::Ldb(pair, dst) | Instruction::Lpb(pair, dst) => pair < 8 && dst < 16,
            Instruction::Stb(src, pair) | Instruction::Spb(src, pair) => src < 16 && pair < 8,
            Instruction::Rie(pair) | Instruction::Sie(pair) => pair < 8,
            Instruction::Psh(src) => src < 16,
            Instruction::Pop(dst) => dst < 16,
            Instruction::Ret
            | Instruction::Str
            | Instruction::Lsr
            | Instruction::Hlt
            | Instruction::Rti => true,
            Instruction::Sys(..) => true,
        }
    }

    fn word(self) -> Word
        requires { fits self ≡ true }
        ensures { result ≡ word_of self }
    {
        match self {
            Instruction::Mvs(top) => with_address(0, top / 16),
            Instruction::Mvv(handler, vector) => Word::Two(0x10 + vector, (handler / 16) as u8),
            Instruction::Jmp(target) => with_address(2, target),
            Instruction::Jsr(target) => with_address(3, target),
            Instruction::Branch(flag, target) => with_address(flag as u8, target),
            Instruction::Mvi(byte, dst) => Word::Two(0x80 + dst, byte),
            Instruction::Alu(op, src, dst) => Word::Two(0x90 + op as u8, src * 16 + dst),
            Instruction::Adi(amount, dst) => Word::Two(0x9E, (amount - 1) * 16 + dst),
            Instruction::Sbi(amount, dst) => Word::Two(0x9F, (amount - 1) * 16 + dst),
            Instruction::Aluc(code, src, dst) => Word::Two(0xA0 + code, src * 16 + dst),
            Instruction::Mov(src, dst) => Word::Two(0xC0, src * 16 + dst),
            Instruction::Ldb(pair, dst) => Word::Two(0xC1, pair * 16 + dst),
            Instruction::Lpb(pair, dst) => Word::Two(0xC1, (pair + 8) * 16 + dst),
            Instruction::Stb(src, pair) => Word::Two(0xC2, src * 16 + pair),
            Instruction::Spb(src, pair) => Word::Two(0xC2, src * 16 + pair + 8),
            Instruction::Ret => Word::One(0xC3),
            Instruction::Str => Word::One(0xC4),
            Instruction::Lsr => Word::One(0xC5),
            Instruction::Rie(pair) => Word::Two(0xC6, pair * 16),
            Instruction::Sie(pair) => Word::Two(0xC7, pair * 16),
            Instruction::Hlt => Word::One(0xC8),
            Instruction::Rti => Word::One(0xC9),
            Instruction::Sys(byte) => Word::Two(0xCF, byte),
            Instruction::Psh(src) => Word::One(0xD0 + src),
            Instruction::Pop(dst) => Word::One(0xE0 + dst),
        }
    }
}

// A word of an upper nibble and twelve bits of address.
fn with_address(opcode: u8, address: u16) -> Word
    requires opcode { opcode < 16 }
    requires address { address < 4096 }
    ensures { result ≡ with_address opcode address }
{
    let [high, low] = address.to_be_bytes();
    Word::Two(opcode * 16 + high, low)
}

#[cfg(test)]
mod tests;
