// The CHAM unit: 32 bits turned left.
ghost use Rattle.std.specs.Prelude.{◌≡◌};
ghost use Rattle.units.specs.Cham.{turned_bytes, calculated, cham_step, cham_codes, cham_few, cham_contents, cham_operates, cham_plan};
ghost use Rattle.units.specs.Meaning.{fresh};
ghost use Rattle.units.specs.Planned.{planned_quiet, planned_idle, planned_clean};

use super::sequence::{Sequence, joined};
use super::unit::{Refusal, Reply, Status, Unit};
use marks::Marked;

// A word of four bytes, with a sequence of six calls.
#[derive(Clone, Copy)]
pub struct Cham {
    word: Sequence,
}

// Four bytes, the first lowest, turned left by an amount.
fn turn(bytes: [u8; 4], amount: u8) -> [u8; 4]
    ensures { result ≡ turned_bytes bytes amount }
{
    u32::from_le_bytes(bytes)
        .rotate_left(amount as u32)
        .to_le_bytes()
}

// The four bytes turned; each carries the joined mark of all four and the amount.
fn calculate(word: &mut Sequence, amount: Marked)
    ensures { word.new ≡ calculated word.old amount }
{
    let [p, q, r, s] = word.bytes;
    let turned = turn([p.byte, q.byte, r.byte, s.byte], amount.byte);
    word.replace(turned, joined(&[p, q, r, s, amount]));
}

impl Cham {
    // The next call of the sequence.
    fn call(&mut self, a: Marked, b: Marked) -> Reply
        ensures reply { result ≡ (cham_step self.old a b).0 }
        ensures after { cham_contents self.new ≡ (cham_step self.old a b).1 }
    {
        let word = &mut self.word;
        match word.stage {
            0 => {
                word.load(0, a, b);
                word.answer(1, b, 0)
            }
            1 => {
                word.load(2, a, b);
                word.answer(2, b, 0)
            }
            2 => {
                calculate(word, a);
                word.answer(3, word.bytes[3], 1)
            }
            3 => word.answer(4, word.bytes[2], 0),
            4 => word.answer(5, word.bytes[1], 0),
            _ => word.answer(0, word.bytes[0], 0),
        }
    }

    // A unit whose contents are zeros, unheld.
    pub fn new() -> Cham
        ensures { cham_contents result ≡ fresh 1 4 }
    {
        Cham {
            word: Sequence::new(),
        }
    }
}

impl Unit for Cham {
    ghost contents = { cham_contents };

    ghost codes = { λ _. cham_codes };

    ghost operates = { cham_operates };

    ghost quiet = { planned_quiet cham_plan };

    ghost idle = { planned_idle cham_plan };

    ghost clean = { planned_clean cham_plan };

    ghost few = { λ _ k h. cham_few k h };

    fn operate(
        &mut self,
        code: u8,
        a: Marked,
        b: Marked,
        _status: Status,
    ) -> Result<Reply, Refusal> {
        if code != 4 {
            return Err(Refusal::LackingCode);
        }
        Ok(self.call(a, b))
    }
}
