// Stores and boards, at their edges.
use super::board::OddsBoard;
use super::bus::{Bus, Kind, Refusal};
use super::store::Store;
use marks::{Mark, Marked};
use std::process::Abort;
use std::test::Fail;

fn held(byte: u8) -> Marked {
    Marked {
        byte,
        mark: Mark::Held,
    }
}

// A cell's kind, and what it reads as.
fn is_cell<B: Bus>(rt: &impl Abort, bus: &B, address: u16, kind: Kind, value: Marked) {
    assert_eq!(rt; bus.kind(address), kind);
    assert_eq!(rt; bus.read(address), Ok(value));
}

fn is_absent<B: Bus>(rt: &impl Abort, bus: &mut B, address: u16) {
    assert_eq!(rt; bus.kind(address), Kind::Absent);
    assert_eq!(rt; bus.read(address), Err(Refusal::AbsentCell));
    assert_eq!(rt;
        bus.write(address, Marked::unheld(1)),
        Err(Refusal::AbsentCell)
    );
    assert_eq!(rt; bus.lift(address), Err(Refusal::AbsentCell));
}

fn is_unfit(rt: &impl Abort, bytes: &mut [u8], marks: &mut [u8]) -> Result<(), Fail> {
    match Store::new(bytes, marks) {
        Ok(_) => Err(Fail::new("made")),
        Err(unfit) => {
            assert_eq!(rt; unfit.refusal, Refusal::UnfitMemories);
            Ok(())
        },
    }
}

#[test]
fn unfit_memories(rt: HostRuntime) -> Result<(), Fail> {
    let mut bytes = vec![in rt.alloc(); 0u8; 65537]?;
    let mut marks = vec![in rt.alloc(); 0u8; 65537]?;
    is_unfit(&rt, bytes.as_mut_slice(), marks.as_mut_slice())?;
    is_unfit(&rt, &mut [0; 3], &mut [0; 2])?;
    let mut two = [5, 6];
    let mut three = [7, 7, 7];
    is_unfit(&rt, &mut two, &mut three)?;
    assert_eq!(rt; two, [5, 6]);
    assert_eq!(rt; three, [7, 7, 7]);
    Ok(())
}

#[test]
fn no_cells(rt: HostRuntime) -> Result<(), Fail> {
    let mut store = Store::new(&mut [], &mut [])?;
    for address in 0..=0xFFFFu16 {
        is_absent(&rt, &mut store, address);
    }
    Ok(())
}

#[test]
fn all_cells(rt: HostRuntime) -> Result<(), Fail> {
    let mut bytes = vec![in rt.alloc(); 0u8; 65536]?;
    let mut marks = vec![in rt.alloc(); 0u8; 65536]?;
    let mut store = Store::new(bytes.as_mut_slice(), marks.as_mut_slice())?;
    store.write(0xFFFF, held(0xA5))?;
    is_cell(&rt, &store, 0xFFFF, Kind::Plain, held(0xA5));
    is_cell(&rt, &store, 0xFFFE, Kind::Plain, Marked::unheld(0));
    is_cell(&rt, &store, 0, Kind::Plain, Marked::unheld(0));
    Ok(())
}

#[test]
fn marks_in_memory(rt: HostRuntime) -> Result<(), Fail> {
    let mut bytes = [5, 6, 8];
    let mut marks = [7, 7, 7];
    let mut store = Store::new(&mut bytes, &mut marks)?;
    is_cell(&rt, &store, 0, Kind::Plain, held(5));
    store.write(0, Marked::unheld(1))?;
    store.write(1, held(2))?;
    store.lift(2)?;
    is_cell(&rt, &store, 2, Kind::Plain, Marked::unheld(8));
    is_absent(&rt, &mut store, 3);
    assert_eq!(rt; bytes, [1, 2, 8]);
    assert_eq!(rt; marks, [0, 1, 0]);
    Ok(())
}

// A cell of a store of held nines, beside a board, takes a held byte.
fn is_beside<B: Bus>(rt: &impl Abort, bus: &mut B, address: u16) -> Result<(), Fail> {
    is_cell(rt, bus, address, Kind::Plain, held(9));
    bus.write(address, held(4))?;
    is_cell(rt, bus, address, Kind::Plain, held(4));
    bus.lift(address)?;
    is_cell(rt, bus, address, Kind::Plain, Marked::unheld(4));
    Ok(())
}

// A cell of a new board shows unheld bytes and no held one.
fn is_shown<B: Bus>(rt: &impl Abort, bus: &mut B, address: u16) -> Result<(), Fail> {
    is_cell(rt, bus, address, Kind::Board, Marked::unheld(0));
    bus.write(address, Marked::unheld(1))?;
    assert_eq!(rt; bus.write(address, held(3)), Err(Refusal::HeldToBoard));
    bus.lift(address)?;
    is_cell(rt, bus, address, Kind::Board, Marked::unheld(1));
    Ok(())
}

fn board_at(rt: &(impl Abort + AllocGlobal), page: u8) -> Result<(), Fail> {
    let mut bytes = vec![in rt.alloc(); 9u8; 65536]?;
    let mut marks = vec![in rt.alloc(); 1u8; 65536]?;
    let store = Store::new(bytes.as_mut_slice(), marks.as_mut_slice())?;
    let mut bus = OddsBoard::new(page, store);
    let first = page as u16 * 256;
    let last = first + 63;
    is_shown(rt, &mut bus, first)?;
    is_shown(rt, &mut bus, last)?;
    if first > 0 {
        is_beside(rt, &mut bus, first - 1)?;
    }
    is_beside(rt, &mut bus, last + 1)?;
    is_cell(rt, &bus, first, Kind::Board, Marked::unheld(1));
    is_cell(rt, &bus, last, Kind::Board, Marked::unheld(1));
    assert_eq!(rt; bytes.as_slice().get(first as usize), Some(&9));
    assert_eq!(rt; marks.as_slice().get(first as usize), Some(&1));
    Ok(())
}

#[test]
fn first_and_last_page(rt: HostRuntime) -> Result<(), Fail> {
    board_at(&rt, 0)?;
    board_at(&rt, 255)
}

#[test]
fn board_over_board(rt: HostRuntime) -> Result<(), Fail> {
    let mut lower = OddsBoard::new(3, Store::new(&mut [], &mut [])?);
    lower.write(0x300, Marked::unheld(1))?;
    lower.write(0x33F, Marked::unheld(1))?;
    let mut upper = OddsBoard::new(3, lower);
    is_cell(&rt, &upper, 0x300, Kind::Board, Marked::unheld(0));
    is_cell(&rt, &upper, 0x33F, Kind::Board, Marked::unheld(0));
    upper.write(0x300, Marked::unheld(2))?;
    is_cell(&rt, &upper, 0x300, Kind::Board, Marked::unheld(2));
    is_absent(&rt, &mut upper, 0x2FF);
    is_absent(&rt, &mut upper, 0x340);
    Ok(())
}
