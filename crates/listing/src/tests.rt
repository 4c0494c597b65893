// Texts of single instructions, and of programs with faults.
use super::faults::fault_text;
use super::hex::*;
use super::lines::listing_text;
use super::text::instruction_text;
use isa::decode;
use std::process::Abort;
use std::test::Fail;

#[test]
fn instructions_in_assembler_syntax(rt: HostRuntime) -> Result<(), Fail> {
    let table = [
        (0x00, 0x04, "mvs 0x0040"),
        (0x14, 0xFF, "mvv 0xFF0, iv4"),
        (0x20, 0x44, "jmp 0x044"),
        (0x30, 0x80, "jsr 0x080"),
        (0x40, 0xE3, "bzi 0x0E3"),
        (0x60, 0x22, "bci 0x022"),
        (0x80, 0x41, "mvi 0x41, r0"),
        (0x90, 0x92, "add a1, r2"),
        (0x91, 0x43, "sub r4, r3"),
        (0x93, 0x89, "lor a0, a1"),
        (0x9A, 0x12, "not r1, r2"),
        (0x9E, 0x48, "adi 5, a0"),
        (0x9F, 0x09, "sbi 1, a1"),
        (0xA0, 0x34, "asb r3, r4"),
        (0xA4, 0x01, "swd r0, r1"),
        (0xA9, 0x01, "aluc 9, r0, r1"),
        (0xC0, 0xC0, "mov a4, r0"),
        (0xC1, 0x39, "ldb 3, a1"),
        (0xC1, 0x81, "lpb 0, r1"),
        (0xC2, 0x31, "stb r3, 1"),
        (0xC2, 0x8F, "spb a0, 7"),
        (0xC3, 0x00, "ret"),
        (0xC6, 0x10, "rie 1"),
        (0xC7, 0x40, "sie 4"),
        (0xCF, 0xFF, "sys 0xFF"),
        (0xD8, 0x00, "psh a0"),
        (0xE7, 0x00, "pop r7"),
    ];
    for (first, second, text) in table {
        let instruction = decode(Some(first), Some(second)).ok().ok_or("refused")?;
        let written = instruction_text(rt.alloc(), instruction)?;
        assert_eq!(rt; written.as_str(), text);
    }
    Ok(())
}

fn read_as(rt: &(impl Abort + AllocGlobal), text: &str, bytes: &[u8]) -> Result<(), Fail> {
    let program = read_hex(rt.alloc(), text.as_bytes())?;
    assert_eq!(rt; program.as_slice(), bytes);
    Ok(())
}

fn faulty_as(rt: &(impl Abort + AllocGlobal), text: &str, told: &str) -> Result<(), Fail> {
    let fault = read_hex(rt.alloc(), text.as_bytes()).err().ok_or("read")?;
    let written = fault_text(rt.alloc(), text.as_bytes(), fault)?;
    assert_eq!(rt; written.as_str(), told);
    Ok(())
}

#[test]
fn hex_texts(rt: HostRuntime) -> Result<(), Fail> {
    read_as(&rt, "", &[])?;
    read_as(&rt, "8041cfFF", &[0x80, 0x41, 0xCF, 0xFF])?;
    read_as(
        &rt,
        " 8 0\t41\r\n# zz 12\n cf # ff\nFf",
        &[0x80, 0x41, 0xCF, 0xFF],
    )?;
    faulty_as(
        &rt,
        "80 4",
        "line 1, column 4: an odd number of digits, this one is left over",
    )?;
    faulty_as(
        &rt,
        "80\n# 4\n  4 1 x",
        "line 3, column 7: 'x' is no hex digit",
    )?;
    faulty_as(
        &rt,
        "80\u{7f}",
        "line 1, column 3: byte 0x7F is no hex digit",
    )
}

#[test]
fn longest_program(rt: HostRuntime) -> Result<(), Fail> {
    let mut text = vec![in rt.alloc(); b'0'; 8192]?;
    let full = read_hex(rt.alloc(), text.as_slice());
    assert!(rt; full.is_ok());
    text.push(b'0')?;
    let fault = read_hex(rt.alloc(), text.as_slice());
    assert!(rt; matches!(fault, Err(Fault::TooLong { at: 8192 })));
    Ok(())
}

#[test]
fn reserved_and_cut_off(rt: HostRuntime) -> Result<(), Fail> {
    let listed = listing_text(rt.alloc(), &[0xB0, 0x80, 0x41, 0xC3, 0x98, 0x80])?;
    assert_eq!(rt;
        listed.as_str(),
        "0x000  B0    reserved\n0x001  8041  mvi 0x41, r0\n0x003  C3    ret\n0x004  98    reserved\n0x005  80    cut off\n6 bytes, 2 instructions, 2 reserved, 1 cut off\n"
    );
    Ok(())
}
