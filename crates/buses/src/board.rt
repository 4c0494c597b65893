// An odds board of 64 cells over any other bus.
ghost use Rattle.std.specs.Prelude.{◌≡◌, ◌-◌, ◌*◌, ◌∷◌, replicate, if◌then◌else◌, Some, None};
ghost use Rattle.buses.specs.Overlay.{on_board, overlaid, covered};

use super::bus::{Bus, Kind, Refusal};
use marks::Marked;

// The board's cells lie at page × 256 onwards and hide those beneath.
#[derive(Drop)]
pub struct OddsBoard<B> {
    page: u8,
    own: [u8; 64],
    below: B,
}

impl<B> OddsBoard<B> {
    // A board whose cells are 0.
    pub fn new(page: u8, below: B) -> OddsBoard<B>
        ensures page { result.page ≡ page }
        ensures zeros { result.own ≡ replicate 64 0 }
        ensures below { result.below ≡ below }
    {
        OddsBoard {
            page,
            own: [0; 64],
            below,
        }
    }

    // The index of a cell of the board's own.
    fn index(&self, address: u16) -> Option<usize>
        ensures { result ≡ (if on_board self.now.page address then Some (address - self.now.page * 256) else None) }
    {
        let first = self.page as u16 * 256;
        if (first..first + 64).contains(&address) {
            Some((address - first) as usize)
        } else {
            None
        }
    }
}

impl<B: Bus> Bus for OddsBoard<B> {
    ghost cells = { λ s. overlaid s.page s.own (B.Bus.cells s.below) };

    ghost hidden = { λ s. covered s.page (B.Bus.cells s.below) ∷ B.Bus.hidden s.below };

    fn kind(&self, address: u16) -> Kind {
        match self.index(address) {
            Some(_) => Kind::Board,
            None => self.below.kind(address),
        }
    }

    fn read(&self, address: u16) -> Result<Marked, Refusal> {
        match self.index(address) {
            Some(at) => Ok(Marked::unheld(self.own[at])),
            None => self.below.read(address),
        }
    }

    fn write(&mut self, address: u16, value: Marked) -> Result<(), Refusal> {
        match self.index(address) {
            Some(_) if value.mark.is_held() => Err(Refusal::HeldToBoard),
            Some(at) => {
                self.own[at] = value.byte;
                Ok(())
            }
            None => self.below.write(address, value),
        }
    }

    fn lift(&mut self, address: u16) -> Result<(), Refusal> {
        match self.index(address) {
            Some(_) => Ok(()),
            None => self.below.lift(address),
        }
    }
}
