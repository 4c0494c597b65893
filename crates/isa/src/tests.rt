// Words and the instructions that they stand for.
use super::*;
use std::process::Abort;

// Both ways: the word is read as the instruction, and the instruction written as the word.
fn pairs_with(rt: &impl Abort, word: Word, instruction: Instruction) {
    let read = match word {
        Word::One(first) => decode(Some(first), None),
        Word::Two(first, second) => decode(Some(first), Some(second)),
    };
    assert!(rt; read == Ok(instruction));
    assert_eq!(rt; encode(instruction), Ok(word));
}

#[test]
fn moves_and_jumps(rt: HostRuntime) {
    let table = [
        (Word::Two(0x00, 0x04), Instruction::Mvs(0x0040)),
        (Word::Two(0x0F, 0xFF), Instruction::Mvs(0xFFF0)),
        (Word::Two(0x00, 0x00), Instruction::Mvs(0)),
        (Word::Two(0x14, 0xFF), Instruction::Mvv(0xFF0, 4)),
        (Word::Two(0x20, 0x44), Instruction::Jmp(0x044)),
        (Word::Two(0x30, 0x80), Instruction::Jsr(0x080)),
        (
            Word::Two(0x40, 0xE3),
            Instruction::Branch(Flag::Zero, 0x0E3),
        ),
        (
            Word::Two(0x51, 0xAE),
            Instruction::Branch(Flag::Negative, 0x1AE),
        ),
        (
            Word::Two(0x60, 0x22),
            Instruction::Branch(Flag::Carry, 0x022),
        ),
        (
            Word::Two(0x7F, 0xFF),
            Instruction::Branch(Flag::Overflow, 0xFFF),
        ),
        (Word::Two(0x81, 0x32), Instruction::Mvi(50, 1)),
    ];
    for (word, instruction) in table {
        pairs_with(&rt, word, instruction);
    }
}

#[test]
fn arithmetic_and_logic(rt: HostRuntime) {
    let table = [
        (Word::Two(0x90, 0x92), Instruction::Alu(Alu::Add, 9, 2)),
        (Word::Two(0x91, 0x43), Instruction::Alu(Alu::Sub, 4, 3)),
        (Word::Two(0x92, 0x08), Instruction::Alu(Alu::And, 0, 8)),
        (Word::Two(0x93, 0x89), Instruction::Alu(Alu::Lor, 8, 9)),
        (Word::Two(0x94, 0x08), Instruction::Alu(Alu::Sll, 0, 8)),
        (Word::Two(0x95, 0x08), Instruction::Alu(Alu::Rol, 0, 8)),
        (Word::Two(0x96, 0x29), Instruction::Alu(Alu::Srl, 2, 9)),
        (Word::Two(0x97, 0x08), Instruction::Alu(Alu::Ror, 0, 8)),
        (Word::Two(0x9A, 0x12), Instruction::Alu(Alu::Not, 1, 2)),
        (Word::Two(0x9B, 0x08), Instruction::Alu(Alu::Xor, 0, 8)),
        (Word::Two(0x9C, 0x12), Instruction::Alu(Alu::Adc, 1, 2)),
        (Word::Two(0x9D, 0x32), Instruction::Alu(Alu::Sbc, 3, 2)),
        (Word::Two(0x9E, 0x48), Instruction::Adi(5, 8)),
        (Word::Two(0x9F, 0x09), Instruction::Sbi(1, 9)),
        (Word::Two(0x9F, 0xFF), Instruction::Sbi(16, 15)),
        (Word::Two(0xA0, 0x34), Instruction::Aluc(0, 3, 4)),
        (Word::Two(0xAF, 0xF0), Instruction::Aluc(15, 15, 0)),
    ];
    for (word, instruction) in table {
        pairs_with(&rt, word, instruction);
    }
}

#[test]
fn memory_stack_and_system(rt: HostRuntime) {
    let table = [
        (Word::Two(0xC0, 0xC0), Instruction::Mov(12, 0)),
        (Word::Two(0xC1, 0x39), Instruction::Ldb(3, 9)),
        (Word::Two(0xC1, 0x81), Instruction::Lpb(0, 1)),
        (Word::Two(0xC2, 0x31), Instruction::Stb(3, 1)),
        (Word::Two(0xC2, 0x8F), Instruction::Spb(8, 7)),
        (Word::One(0xC3), Instruction::Ret),
        (Word::One(0xC4), Instruction::Str),
        (Word::One(0xC5), Instruction::Lsr),
        (Word::Two(0xC6, 0x10), Instruction::Rie(1)),
        (Word::Two(0xC7, 0x40), Instruction::Sie(4)),
        (Word::One(0xC8), Instruction::Hlt),
        (Word::One(0xC9), Instruction::Rti),
        (Word::Two(0xCF, 0xFF), Instruction::Sys(0xFF)),
        (Word::One(0xD8), Instruction::Psh(8)),
        (Word::One(0xE7), Instruction::Pop(7)),
    ];
    for (word, instruction) in table {
        pairs_with(&rt, word, instruction);
    }
    // Bits 7 and 3 to 0 of rie and sie are not used.
    assert!(rt; decode(Some(0xC6), Some(0x9F)) == Ok(Instruction::Rie(1)));
    assert!(rt; decode(Some(0xC7), Some(0xFF)) == Ok(Instruction::Sie(7)));
}

#[test]
fn refusals(rt: HostRuntime) {
    let reserved = [
        0x98, 0x99, 0xB0, 0xB7, 0xBF, 0xCA, 0xCB, 0xCC, 0xCD, 0xCE, 0xF0, 0xFF,
    ];
    for first in reserved {
        assert!(rt; decode(Some(first), None) == Err(Refusal::ReservedWord));
        assert!(rt; decode(Some(first), Some(0)) == Err(Refusal::ReservedWord));
    }
    assert!(rt; decode(None, Some(0)) == Err(Refusal::MissingByte));
    let cut_off = [
        0x00, 0x1F, 0x20, 0x7F, 0x80, 0x90, 0x9F, 0xA0, 0xC0, 0xC2, 0xC6, 0xC7, 0xCF,
    ];
    for first in cut_off {
        assert!(rt; decode(Some(first), None) == Err(Refusal::MissingByte));
    }
    let outside = [
        Instruction::Mvs(0x0041),
        Instruction::Mvv(0x1000, 0),
        Instruction::Mvv(0xFF8, 0),
        Instruction::Mvv(0, 16),
        Instruction::Jmp(0x1000),
        Instruction::Mvi(0, 16),
        Instruction::Adi(0, 0),
        Instruction::Sbi(17, 0),
        Instruction::Aluc(16, 0, 0),
        Instruction::Lpb(8, 0),
        Instruction::Psh(16),
    ];
    for instruction in outside {
        assert_eq!(rt; encode(instruction), Err(Refusal::OperandOutOfField));
    }
}
