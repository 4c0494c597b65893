// What every bus does.
ghost use Rattle.std.specs.Prelude.{◌≡◌, List};
ghost use Rattle.buses.specs.Cells.{Cells, kind_of, read_cell, write_cell, lift_cell, told, settled};
ghost use Rattle.buses.specs.Laws.{WriteLaws, LiftLaws};
ghost use Rattle.buses.specs.Numbers.{numbered};

use marks::Marked;

// What may be done with a cell: nothing; a marked byte lies there; an unheld byte is shown there.
#[derive(Clone, Copy, Debug, PartialEq, Eq)]
pub enum Kind {
    Absent,
    Plain,
    Board,
}

// Why a bus refuses, each cause by its number.
#[derive(Clone, Copy, Debug, PartialEq, Eq)]
pub enum Refusal {
    UnfitMemories = 9,
    AbsentCell = 20,
    HeldToBoard = 25,
}

// A bus, by its cells and by the cells that its layers hide, which only the layers beneath can reach.
pub trait Bus {
    ghost cells: { Self → Cells };

    ghost hidden: { Self → List Cells };

    fn kind(&self, address: u16) -> Kind
        ensures { result ≡ kind_of (cells self.now address) };

    fn read(&self, address: u16) -> Result<Marked, Refusal>
        ensures { numbered result ≡ read_cell (cells self.now address) };

    // Puts a marked byte into a cell.
    fn write(&mut self, address: u16, value: Marked) -> Result<(), Refusal>
        ensures told { numbered result ≡ told (write_cell (cells self.old address) value) }
        ensures cells { cells self.new ≡ settled (cells self.old) address (write_cell (cells self.old address) value) }
        ensures hidden { hidden self.new ≡ hidden self.old }
        ensures laws { WriteLaws };

    // Makes the byte of a plain cell unheld.
    fn lift(&mut self, address: u16) -> Result<(), Refusal>
        ensures told { numbered result ≡ told (lift_cell (cells self.old address)) }
        ensures cells { cells self.new ≡ settled (cells self.old) address (lift_cell (cells self.old address)) }
        ensures hidden { hidden self.new ≡ hidden self.old }
        ensures laws { LiftLaws };
}
