// A bus over two memories of the caller's.
ghost use Rattle.std.specs.Prelude.{◌≡◌, if◌then◌else◌, Ok, Err, slice_set};
ghost use Rattle.marks.specs.Marks.{mark_byte};
ghost use Rattle.buses.specs.declared.bus.Refusal.TheVariants.{AbsentCell};
ghost use Rattle.buses.specs.Memories.{inside};
ghost use Rattle.buses.specs.Cells.{lift_cell, settled, told, write_cell};
ghost use Rattle.buses.specs.Laws.{LiftLaws, WriteLaws};
ghost use Rattle.buses.specs.Numbers.{numbered};
ghost use Rattle.buses.specs.Stores.{StoreOver, holds, store_of, store_hidden};

use super::bus::{Bus, Kind, Refusal};
use marks::{Mark, Marked};

// Memories that no store is made over, handed back as they were.
#[derive(Debug, Drop)]
pub struct Unfit<'a> {
    pub refusal: Refusal,
    pub bytes: &'a mut [u8],
    pub marks: &'a mut [u8],
}

// Cell i has byte i of the one memory and mark i of the other: two slices, since the rules put a store over the caller's n bytes and n marks.
#[derive(Drop)]
pub struct Store<'a> {
    bytes: &'a mut [u8],
    marks: &'a mut [u8],
}

impl<'a> Store<'a> {
    // A store over memories of one length, up to 65,536.
    pub fn new(bytes: &'a mut [u8], marks: &'a mut [u8]) -> Result<Store<'a>, Unfit<'a>>
        ensures { StoreOver bytes.old marks.old result }
    {
        if bytes.len() != marks.len() || bytes.len() > 65536 {
            return Err(Unfit {
                refusal: Refusal::UnfitMemories,
                bytes,
                marks,
            });
        }
        Ok(Store { bytes, marks })
    }

    // The index of a cell in both memories, if it is there.
    fn index(&self, address: u16) -> Result<usize, Refusal>
        ensures { result ≡ (if inside self.now.bytes.now self.now.marks.now address then Ok address else Err AbsentCell) }
    {
        let at = address as usize;
        if at < self.bytes.len() && at < self.marks.len() {
            Ok(at)
        } else {
            Err(Refusal::AbsentCell)
        }
    }
}

impl<'a> Bus for Store<'a> {
    ghost cells = { store_of };

    ghost hidden = { store_hidden };

    fn kind(&self, address: u16) -> Kind {
        match self.index(address) {
            Ok(_) => Kind::Plain,
            Err(_) => Kind::Absent,
        }
    }

    fn read(&self, address: u16) -> Result<Marked, Refusal> {
        let at = self.index(address)?;
        Ok(Marked {
            byte: self.bytes[at],
            mark: Mark::from(self.marks[at]),
        })
    }

    // The memories have the byte, and its mark as 0 or 1.
    fn write(&mut self, address: u16, value: Marked) -> Result<(), Refusal>
        ensures told { numbered result ≡ told (write_cell (store_of self.old address) value) }
        ensures cells { store_of self.new ≡ settled (store_of self.old) address (write_cell (store_of self.old address) value) }
        ensures hidden { store_hidden self.new ≡ store_hidden self.old }
        ensures laws { WriteLaws }
        ensures bytes { self.new.bytes.now ≡ (if holds self.old address then slice_set self.old.bytes.now address value.byte else self.old.bytes.now) }
        ensures marks { self.new.marks.now ≡ (if holds self.old address then slice_set self.old.marks.now address (mark_byte value.mark) else self.old.marks.now) }
    {
        let at = self.index(address)?;
        self.bytes[at] = value.byte;
        self.marks[at] = value.mark.into();
        Ok(())
    }

    // The mark becomes 0.
    fn lift(&mut self, address: u16) -> Result<(), Refusal>
        ensures told { numbered result ≡ told (lift_cell (store_of self.old address)) }
        ensures cells { store_of self.new ≡ settled (store_of self.old) address (lift_cell (store_of self.old address)) }
        ensures hidden { store_hidden self.new ≡ store_hidden self.old }
        ensures laws { LiftLaws }
        ensures bytes { self.new.bytes.now ≡ self.old.bytes.now }
        ensures marks { self.new.marks.now ≡ (if holds self.old address then slice_set self.old.marks.now address 0 else self.old.marks.now) }
    {
        let at = self.index(address)?;
        self.marks[at] = 0;
        Ok(())
    }
}
