// Whole ciphers as programs of the core, run through a terminal's calls.
use super::failure::Failure;
use buses::bus::Bus;
use buses::store::Store;
use listing::hex::read_hex;
use std::alloc::Global;
use std::fs;
use tally::Tally;
use terminal::Terminal;
use terminal::calls::{Answer, Call, Unmade};
use terminal::interval::{Interval, Seal};
use units::aes::Aes;
use units::cham::Cham;
use units::unit::Unit;

// A published value: the program's file, text at 0, the key, and what the cipher makes of them.
#[derive(Clone, Copy)]
struct Published<'v> {
    file: &'v str,
    name: &'v str,
    text: &'v [u8],
    key_at: u16,
    key: &'v [u8],
    expected: &'v [u8],
}

// What a list of calls told.
#[derive(Drop)]
struct Told {
    steps: u32,
    cycles: u64,
    refused: u32,
    shown: Vec<u8>,
}

// The intervals that were opened.
fn intervals(heap: Global, answers: Vec<Result<Answer, Unmade>>) -> Result<Vec<Interval>, Failure> {
    let mut open = Vec::new(heap);
    for answer in answers {
        if let Ok(Answer::Opened(interval)) = answer {
            open.push(interval)?;
        }
    }
    Ok(open)
}

// Steps and cycles, refusals, and the bytes that were shown.
fn sort_out(heap: Global, answers: &[Result<Answer, Unmade>]) -> Result<Told, Failure> {
    let mut told = Told {
        steps: 0,
        cycles: 0,
        refused: 0,
        shown: Vec::new(heap),
    };
    for answer in answers {
        match answer {
            Ok(Answer::Ran(run)) => {
                told.steps = run.steps;
                told.cycles = run.cycles;
            }
            Ok(Answer::Byte(byte)) => told.shown.push(*byte)?,
            Err(Unmade::Refused(_)) => told.refused = told.refused.saturating_add(1),
            _ => {}
        }
    }
    Ok(told)
}

// Loads a program, and opens an interval over the key and one over the text.
fn beginning<'i>(
    heap: Global,
    program: &[u8],
    value: &Published<'_>,
    seal: Seal,
) -> Result<Vec<Call<'i>>, Failure> {
    let program = Vec::from_slice(heap, program)?;
    let length = (value.text.len() % 65536) as u16;
    let calls = vec![in heap;
        Call::Load(1, program),
        Call::Open(seal, value.key_at, 16),
        Call::Open(seal, 0, length),
    ]?;
    Ok(calls)
}

// Enters the key, runs the program, and asks for the first byte of the text.
fn running<'i>(heap: Global, interval: &'i Interval, key: &[u8]) -> Result<Vec<Call<'i>>, Failure> {
    let mut calls = Vec::new(heap);
    for (offset, byte) in (0..=u16::MAX).zip(key) {
        calls.push(Call::Entry(interval, offset, *byte))?;
    }
    calls.push(Call::Start)?;
    calls.push(Call::Run(1000000))?;
    calls.push(Call::Cell(0))?;
    Ok(calls)
}

// Closes the interval over the text, and asks for all of it.
fn showing<'i>(heap: Global, text: Interval, length: usize) -> Result<Vec<Call<'i>>, Failure> {
    let mut calls = Vec::new(heap);
    calls.push(Call::Close(text))?;
    for address in (0..=u16::MAX).take(length) {
        calls.push(Call::Cell(address))?;
    }
    Ok(calls)
}

// Runs a program over a value's text and key, and prints it; a struct of rt and tally would be taken apart at each line.
fn cipher<U: Unit + Drop>(
    rt: &HostRuntime,
    tally: &mut Tally,
    unit: U,
    program: &[u8],
    value: &Published<'_>,
    seal: Seal,
) -> Result<(), Failure> {
    let heap = rt.alloc();
    // two memories, since a store is made over two
    let mut bytes = vec![in heap; 0u8; 1024]?;
    let mut marks = vec![in heap; 0u8; 1024]?;
    for (cell, byte) in bytes.iter_mut().zip(value.text) {
        *cell = *byte;
    }
    let Ok(store) = Store::new(bytes.as_mut_slice(), marks.as_mut_slice()) else {
        unreachable!()
    };
    let mut terminal = Terminal::new(heap, store, unit);
    let answers = terminal.perform(heap, beginning(heap, program, value, seal)?)?;
    let mut open = intervals(heap, answers)?;
    let (Some(text), Some(key)) = (open.pop(), open.pop()) else {
        return Err(Failure::Unopened);
    };
    let answers = terminal.perform(heap, running(heap, &key, value.key)?)?;
    let ran = sort_out(heap, answers.as_slice())?;
    let answers = terminal.perform(heap, showing(heap, text, value.expected.len())?)?;
    let shown = sort_out(heap, answers.as_slice())?;
    let name = value.name;
    let Told {
        steps,
        cycles,
        refused,
        ..
    } = ran;
    let right = shown.shown.as_slice() == value.expected;
    match seal {
        Seal::Practice => {
            let said = tally.count(right && refused == 0);
            println!(rt; "{name}: {steps} steps, {cycles} cycles {said}")?;
        }
        Seal::Sealed => {
            let said = tally.count(right && refused == 1);
            println!(rt;
                "{name}, sealed key: {steps} steps, {cycles} cycles, held until the close {said}"
            )?;
        }
    }
    Ok(())
}

// Runs the program in a value's file, with an open key and with a sealed one.
fn both_seals<U: Unit + Copy + Drop>(
    rt: &HostRuntime,
    tally: &mut Tally,
    unit: U,
    value: &Published<'_>,
) -> Result<(), Failure> {
    let text = fs::read(rt, value.file)?;
    let program = read_hex(rt.alloc(), text.as_slice())?;
    for seal in [Seal::Practice, Seal::Sealed] {
        cipher(rt, tally, unit, program.as_slice(), value, seal)?;
    }
    Ok(())
}

// The values of the AES standard.
fn aes_values() -> [Published<'static>; 4] {
    [
        Published {
            file: "aes_encrypt.hex",
            name: "AES-128 encryption, worked example",
            text: &[
                0x32, 0x43, 0xF6, 0xA8, 0x88, 0x5A, 0x30, 0x8D, 0x31, 0x31, 0x98, 0xA2, 0xE0, 0x37,
                0x07, 0x34,
            ],
            key_at: 0x0010,
            key: &[
                0x2B, 0x7E, 0x15, 0x16, 0x28, 0xAE, 0xD2, 0xA6, 0xAB, 0xF7, 0x15, 0x88, 0x09, 0xCF,
                0x4F, 0x3C,
            ],
            expected: &[
                0x39, 0x25, 0x84, 0x1D, 0x02, 0xDC, 0x09, 0xFB, 0xDC, 0x11, 0x85, 0x97, 0x19, 0x6A,
                0x0B, 0x32,
            ],
        },
        Published {
            file: "aes_encrypt.hex",
            name: "AES-128 encryption, example vector",
            text: &[
                0x00, 0x11, 0x22, 0x33, 0x44, 0x55, 0x66, 0x77, 0x88, 0x99, 0xAA, 0xBB, 0xCC, 0xDD,
                0xEE, 0xFF,
            ],
            key_at: 0x0010,
            key: &[
                0x00, 0x01, 0x02, 0x03, 0x04, 0x05, 0x06, 0x07, 0x08, 0x09, 0x0A, 0x0B, 0x0C, 0x0D,
                0x0E, 0x0F,
            ],
            expected: &[
                0x69, 0xC4, 0xE0, 0xD8, 0x6A, 0x7B, 0x04, 0x30, 0xD8, 0xCD, 0xB7, 0x80, 0x70, 0xB4,
                0xC5, 0x5A,
            ],
        },
        Published {
            file: "aes_decrypt.hex",
            name: "AES-128 decryption, worked example",
            text: &[
                0x39, 0x25, 0x84, 0x1D, 0x02, 0xDC, 0x09, 0xFB, 0xDC, 0x11, 0x85, 0x97, 0x19, 0x6A,
                0x0B, 0x32,
            ],
            key_at: 0x0010,
            key: &[
                0x2B, 0x7E, 0x15, 0x16, 0x28, 0xAE, 0xD2, 0xA6, 0xAB, 0xF7, 0x15, 0x88, 0x09, 0xCF,
                0x4F, 0x3C,
            ],
            expected: &[
                0x32, 0x43, 0xF6, 0xA8, 0x88, 0x5A, 0x30, 0x8D, 0x31, 0x31, 0x98, 0xA2, 0xE0, 0x37,
                0x07, 0x34,
            ],
        },
        Published {
            file: "aes_decrypt.hex",
            name: "AES-128 decryption, example vector",
            text: &[
                0x69, 0xC4, 0xE0, 0xD8, 0x6A, 0x7B, 0x04, 0x30, 0xD8, 0xCD, 0xB7, 0x80, 0x70, 0xB4,
                0xC5, 0x5A,
            ],
            key_at: 0x0010,
            key: &[
                0x00, 0x01, 0x02, 0x03, 0x04, 0x05, 0x06, 0x07, 0x08, 0x09, 0x0A, 0x0B, 0x0C, 0x0D,
                0x0E, 0x0F,
            ],
            expected: &[
                0x00, 0x11, 0x22, 0x33, 0x44, 0x55, 0x66, 0x77, 0x88, 0x99, 0xAA, 0xBB, 0xCC, 0xDD,
                0xEE, 0xFF,
            ],
        },
    ]
}

// The values published with CHAM, their words lowest byte first.
fn cham_values() -> [Published<'static>; 2] {
    [
        Published {
            file: "cham128.hex",
            name: "CHAM-128/128",
            text: &[
                0x00, 0x11, 0x22, 0x33, 0x44, 0x55, 0x66, 0x77, 0x88, 0x99, 0xAA, 0xBB, 0xCC, 0xDD,
                0xEE, 0xFF,
            ],
            key_at: 0x0020,
            key: &[
                0x00, 0x01, 0x02, 0x03, 0x04, 0x05, 0x06, 0x07, 0x08, 0x09, 0x0A, 0x0B, 0x0C, 0x0D,
                0x0E, 0x0F,
            ],
            expected: &[
                0x34, 0x60, 0x74, 0xC3, 0xC5, 0x00, 0x57, 0xB5, 0x32, 0xEC, 0x64, 0x8D, 0xF7, 0x32,
                0x93, 0x48,
            ],
        },
        Published {
            file: "cham64.hex",
            name: "CHAM-64/128",
            text: &[0x00, 0x11, 0x22, 0x33, 0x44, 0x55, 0x66, 0x77],
            key_at: 0x0020,
            key: &[
                0x00, 0x01, 0x02, 0x03, 0x04, 0x05, 0x06, 0x07, 0x08, 0x09, 0x0A, 0x0B, 0x0C, 0x0D,
                0x0E, 0x0F,
            ],
            expected: &[0x3C, 0x45, 0xBC, 0x63, 0xFA, 0xDC, 0x4E, 0xBF],
        },
    ]
}

// All published values of both ciphers.
pub fn all_ciphers(rt: &HostRuntime, tally: &mut Tally) -> Result<(), Failure> {
    for value in aes_values() {
        both_seals(rt, tally, Aes::new(), &value)?;
    }
    for value in cham_values() {
        both_seals(rt, tally, Cham::new(), &value)?;
    }
    Ok(())
}
