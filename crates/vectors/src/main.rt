// Runs published values through the units, and prints each with its outcome.
#![tactic(auto)]

use marks::Marked;
use std::io;
use tally::Tally;
use units::aes::Aes;
use units::cham::Cham;
use units::unit::{Status, Unit};

// What a unit answers to a code and two bytes, and its wait; nothing where it lacks the code.
fn answered<U: Unit>(unit: &mut U, code: u8, a: u8, b: u8) -> Option<(u8, u8)> {
    let status = Status::from(Marked::unheld(0));
    let reply = unit
        .operate(code, Marked::unheld(a), Marked::unheld(b), status)
        .ok()?;
    Some((reply.result.byte, reply.wait))
}

// The last three calls of a sequence, which answer the third byte, the second and the first.
fn unloaded<U: Unit>(unit: &mut U, code: u8) -> Option<[u8; 3]> {
    let (third, _) = answered(unit, code, 0, 0)?;
    let (second, _) = answered(unit, code, 0, 0)?;
    let (first, _) = answered(unit, code, 0, 0)?;
    Some([first, second, third])
}

// The five calls of amc or aic on one column.
fn column<U: Unit>(unit: &mut U, code: u8, s: [u8; 4]) -> Option<([u8; 4], u8)> {
    let _ = answered(unit, code, s[0], s[1])?;
    let (fourth, wait) = answered(unit, code, s[2], s[3])?;
    let [first, second, third] = unloaded(unit, code)?;
    Some(([first, second, third, fourth], wait))
}

// The six calls of swd on a number.
fn turned<U: Unit>(unit: &mut U, n: u32, amount: u8) -> Option<u32> {
    let s = n.to_le_bytes();
    let _ = answered(unit, 4, s[0], s[1])?;
    let _ = answered(unit, 4, s[2], s[3])?;
    let (fourth, _) = answered(unit, 4, amount, 0)?;
    let [first, second, third] = unloaded(unit, 4)?;
    Some(u32::from_le_bytes([first, second, third, fourth]))
}

// The S-box and its inverse, at bytes of the AES standard's worked example; a struct of rt and tally would be taken apart.
fn boxes(rt: &HostRuntime, tally: &mut Tally) -> io::Result<()> {
    let table = [
        (0x00, 0x63),
        (0x53, 0xED),
        (0x19, 0xD4),
        (0xA0, 0xE0),
        (0x9A, 0xB8),
        (0xE9, 0x1E),
        (0x3D, 0x27),
        (0xF4, 0xBF),
    ];
    let mut unit = Aes::new();
    for (plain, boxed) in table {
        let there = answered(&mut unit, 0, plain, 0) == Some((boxed, 0));
        let said = tally.count(there);
        println!(rt; "asb {plain:02x}: {boxed:02x} {said}")?;
        let back = answered(&mut unit, 1, boxed, 0) == Some((plain, 0));
        let said = tally.count(back);
        println!(rt; "aib {boxed:02x}: {plain:02x} {said}")?;
    }
    Ok(())
}

// MixColumns, from the same example and from common test columns, and back.
fn columns(rt: &HostRuntime, tally: &mut Tally) -> io::Result<()> {
    let table = [
        ([0xD4, 0xBF, 0x5D, 0x30], [0x04, 0x66, 0x81, 0xE5]),
        ([0xE0, 0xB4, 0x52, 0xAE], [0xE0, 0xCB, 0x19, 0x9A]),
        ([0xB8, 0x41, 0x11, 0xF1], [0x48, 0xF8, 0xD3, 0x7A]),
        ([0x1E, 0x27, 0x98, 0xE5], [0x28, 0x06, 0x26, 0x4C]),
        ([0xDB, 0x13, 0x53, 0x45], [0x8E, 0x4D, 0xA1, 0xBC]),
        ([0xF2, 0x0A, 0x22, 0x5C], [0x9F, 0xDC, 0x58, 0x9D]),
        ([0x2D, 0x26, 0x31, 0x4C], [0x4D, 0x7E, 0xBD, 0xF8]),
    ];
    let mut unit = Aes::new();
    for (plain, mixed) in table {
        let before = u32::from_be_bytes(plain);
        let after = u32::from_be_bytes(mixed);
        let there = column(&mut unit, 2, plain) == Some((mixed, 3));
        let said = tally.count(there);
        println!(rt; "amc {before:08x}: {after:08x} {said}")?;
        let back = column(&mut unit, 3, mixed) == Some((plain, 23));
        let said = tally.count(back);
        println!(rt; "aic {after:08x}: {before:08x} {said}")?;
    }
    Ok(())
}

// Rotations by every amount, one place at a time; 32 and more turn as the amount less 32 does.
fn rotations(rt: &HostRuntime, tally: &mut Tally) -> io::Result<()> {
    let mut unit = Cham::new();
    let mut expected: u32 = 0x8123_4567;
    for amount in 0..=40u8 {
        let right = turned(&mut unit, 0x8123_4567, amount) == Some(expected);
        let said = tally.count(right);
        println!(rt; "swd 81234567 by {amount}: {expected:08x} {said}")?;
        let top = expected >> 31;
        expected = expected << 1 | top;
    }
    Ok(())
}

fn main(rt: HostRuntime) -> io::Result<()> {
    let mut tally = Tally::default();
    boxes(&rt, &mut tally)?;
    columns(&rt, &mut tally)?;
    rotations(&rt, &mut tally)?;
    println!(rt; "{tally}")
}
