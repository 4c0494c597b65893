// The memories that a machine begins with.
ghost use Rattle.std.specs.Prelude.{◌≡◌, IfOk, Some, None, Ok, map, replicate, MatchResult};
ghost use Rattle.marks.specs.Marks.{mark_byte};
ghost use Rattle.script.specs.Lines.{said_of};
ghost use Rattle.player.specs.Answers.{Gives, numbered};
ghost use Rattle.player.specs.Contents.{contents};
ghost use Rattle.player.specs.Memories.{begun, filled, put_from};

use super::failure::Failure;
use super::reading::{Numbered, wrong};
use marks::Mark;
use script::lines::Line;
use std::alloc::{AllocError, Global};

// A byte and a mark for each cell: two memories, since a store is made over two.
#[derive(Drop)]
pub struct Memories {
    pub bytes: Vec<u8>,
    pub marks: Vec<u8>,
}

// A byte that lies outside the memories.
#[derive(Clone, Copy)]
struct Outside;

impl Memories {
    // Zeros that are not held.
    pub fn new(heap: Global, cells: usize) -> Result<Memories, AllocError>
        ensures { IfOk result (λ m. contents m ≡ (replicate cells 0, replicate cells 0)) }
    {
        let bytes = vec![in heap; 0u8; cells]?;
        let marks = vec![in heap; 0u8; cells]?;
        Ok(Memories { bytes, marks })
    }

    // Puts bytes with one mark from an address on.
    fn put(&mut self, address: u16, values: &[u8], mark: Mark) -> Result<(), Outside>
        ensures { let said = put_from address values.now (mark_byte mark) (contents self.old) in MatchResult result (λ _. said ≡ Some (contents self.new)) (λ _. said ≡ None) }
    {
        for (offset, value) in values.iter().enumerate() {
            let at = address as usize + offset;
            *self.bytes.get_mut(at).ok_or(Outside)? = *value;
            *self.marks.get_mut(at).ok_or(Outside)? = mark.into();
        }
        Ok(())
    }

    // Puts the bytes of one line.
    fn begin(&mut self, line: &Line) -> Result<(), Outside>
        ensures { let said = begun (said_of line.now) (contents self.old) in MatchResult result (λ _. said ≡ Some (contents self.new)) (λ _. said ≡ None) }
    {
        match line {
            Line::Bytes(address, values) => self.put(*address, values, Mark::Unheld),
            Line::Held(address, values) => self.put(*address, values, Mark::Held),
            _ => Ok(()),
        }
    }

    // Puts the bytes that a script begins with.
    pub fn fill(&mut self, heap: Global, lines: &[Numbered]) -> Result<(), Failure>
        ensures { Gives (λ _. contents self.new) result (filled (map numbered lines.now) (contents self.old)) }
    {
        for line in lines {
            if self.begin(&line.line).is_err() {
                return Err(wrong(heap, line.number, "bytes outside the memory"));
            }
        }
        Ok(())
    }
}
