// Instructions in assembler syntax.
ghost use Rattle.std.specs.Prelude.{Some};
ghost use Rattle.isa.specs.Text.{hex_text, register_text, alu_name, branch_name, instruction_text};

use super::{Alu, Flag, Instruction};
use std::fmt;

// A register by its name.
#[derive(Drop)]
struct Register(u8);

impl fmt::Display for Register {
    ghost output = { λ x. Some (register_text x.0) };

    fn fmt<W: fmt::Write>(&self, f: &mut fmt::Formatter<W>) -> fmt::Result {
        let n = self.0;
        if n < 8 {
            write!(f, "r{n}")
        } else {
            write!(f, "a{}", n - 8)
        }
    }
}

// A program address by its last three digits.
#[derive(Drop)]
struct Address(u16);

impl fmt::Display for Address {
    ghost output = { λ x. Some (hex_text 3 x.0) };

    fn fmt<W: fmt::Write>(&self, f: &mut fmt::Formatter<W>) -> fmt::Result {
        write!(f, "0x{:03X}", self.0 % 4096)
    }
}

// The mnemonic of an operation on two registers.
impl fmt::Display for Alu {
    ghost output = { λ op. Some (alu_name op) };

    fn fmt<W: fmt::Write>(&self, f: &mut fmt::Formatter<W>) -> fmt::Result {
        f.write_str(match self {
            Alu::Add => "add",
            Alu::Sub => "sub",
            Alu::And => "and",
            Alu::Lor => "lor",
            Alu::Sll => "sll",
            Alu::Rol => "rol",
            Alu::Srl => "srl",
            Alu::Ror => "ror",
            Alu::Not => "not",
            Alu::Xor => "xor",
            Alu::Adc => "adc",
            Alu::Sbc => "sbc",
        })
    }
}

// The mnemonic of a branch.
impl fmt::Display for Flag {
    ghost output = { λ flag. Some (branch_name flag) };

    fn fmt<W: fmt::Write>(&self, f: &mut fmt::Formatter<W>) -> fmt::Result {
        f.write_str(match self {
            Flag::Zero => "bzi",
            Flag::Negative => "bni",
            Flag::Carry => "bci",
            Flag::Overflow => "bxi",
        })
    }
}

// An instruction in assembler syntax.
impl fmt::Display for Instruction {
    ghost output = { λ instruction. Some (instruction_text instruction) };

    fn fmt<W: fmt::Write>(&self, f: &mut fmt::Formatter<W>) -> fmt::Result {
        match *self {
            Instruction::Mvs(top) => write!(f, "mvs 0x{top:04X}"),
            Instruction::Mvv(handler, vector) => {
                write!(f, "mvv {}, iv{vector}", Address(handler))
            }
            Instruction::Jmp(target) => write!(f, "jmp {}", Address(target)),
            Instruction::Jsr(target) => write!(f, "jsr {}", Address(target)),
            Instruction::Branch(flag, target) => write!(f, "{flag} {}", Address(target)),
            Instruction::Mvi(byte, dst) => write!(f, "mvi 0x{byte:02X}, {}", Register(dst)),
            Instruction::Alu(op, src, dst) => {
                write!(f, "{op} {}, {}", Register(src), Register(dst))
            }
            Instruction::Adi(amount, dst) => write!(f, "adi {amount}, {}", Register(dst)),
            Instruction::Sbi(amount, dst) => write!(f, "sbi {amount}, {}", Register(dst)),
            Instruction::Aluc(code, src, dst) => {
                let src = Register(src);
                let dst = Register(dst);
                // by its mnemonic if it has one, else by its code, a number since each unit reads that field in its own way
                match code {
                    0 => write!(f, "asb {src}, {dst}"),
                    1 => write!(f, "aib {src}, {dst}"),
                    2 => write!(f, "amc {src}, {dst}"),
                    3 => write!(f, "aic {src}, {dst}"),
                    4 => write!(f, "swd {src}, {dst}"),
                    _ => write!(f, "aluc {code}, {src}, {dst}"),
                }
            }
            Instruction::Mov(src, dst) => write!(f, "mov {}, {}", Register(src), Register(dst)),
            Instruction::Ldb(pair, dst) => write!(f, "ldb {pair}, {}", Register(dst)),
            Instruction::Lpb(pair, dst) => write!(f, "lpb {pair}, {}", Register(dst)),
            Instruction::Stb(src, pair) => write!(f, "stb {}, {pair}", Register(src)),
            Instruction::Spb(src, pair) => write!(f, "spb {}, {pair}", Register(src)),
            Instruction::Ret => write!(f, "ret"),
            Instruction::Str => write!(f, "str"),
            Instruction::Lsr => write!(f, "lsr"),
            Instruction::Rie(pair) => write!(f, "rie {pair}"),
            Instruction::Sie(pair) => write!(f, "sie {pair}"),
            Instruction::Hlt => write!(f, "hlt"),
            Instruction::Rti => write!(f, "rti"),
            Instruction::Sys(byte) => write!(f, "sys 0x{byte:02X}"),
            Instruction::Psh(src) => write!(f, "psh {}", Register(src)),
            Instruction::Pop(dst) => write!(f, "pop {}", Register(dst)),
        }
    }
}
