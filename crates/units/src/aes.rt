// The AES unit: the S-box, and columns that are mixed and mixed back.
ghost use Rattle.std.specs.Prelude.{◌≡◌};
ghost use Rattle.units.specs.Meaning.{fresh};
ghost use Rattle.units.specs.Aes.{row_of, wait_of, calculated, column_reply, column_after, aes_codes, aes_few, aes_contents, aes_operates, aes_plan};
ghost use Rattle.units.specs.Sequences.{sequence_contents};
ghost use Rattle.units.specs.Planned.{planned_quiet, planned_idle, planned_clean};

use super::field::{mix_row, unmix_row};
use super::inverse_s_box::restore;
use super::s_box::substitute;
use super::sequence::{Sequence, joined};
use super::unit::{Refusal, Reply, Status, Unit};
use marks::Marked;

// Which way a column is mixed: an enum, since it chooses both the row and the wait.
#[derive(Clone, Copy)]
enum Direction {
    Mix,
    Unmix,
}

// A column for amc and one for aic, each with a sequence of five calls.
#[derive(Clone, Copy)]
pub struct Aes {
    mix: Sequence,
    unmix: Sequence,
}

impl Direction {
    fn row(self, a: u8, b: u8, c: u8, d: u8) -> u8
        ensures { result ≡ row_of self a b c d }
    {
        match self {
            Direction::Mix => mix_row(a, b, c, d),
            Direction::Unmix => unmix_row(a, b, c, d),
        }
    }

    fn wait(self) -> u8
        ensures { result ≡ wait_of self }
    {
        match self {
            Direction::Mix => 3,
            Direction::Unmix => 23,
        }
    }

    // The column that the second call completes, mixed; each byte carries the joined mark of all four.
    fn calculate(self, column: &mut Sequence, a: Marked, b: Marked)
        ensures { column.new ≡ calculated self column.old a b }
    {
        let whole = [column.bytes[0], column.bytes[1], a, b];
        let [p, q, r, s] = whole.map(|each| each.byte);
        let mixed = [
            self.row(p, q, r, s),
            self.row(q, r, s, p),
            self.row(r, s, p, q),
            self.row(s, p, q, r),
        ];
        column.replace(mixed, joined(&whole));
    }

    // The next call of the sequence, inlined where it is called with one direction: a caller that repeats one code takes twice as long without.
    #[inline]
    fn call(self, column: &mut Sequence, a: Marked, b: Marked) -> Reply
        ensures reply { result ≡ column_reply self column.old a b }
        ensures after { sequence_contents column.new ≡ column_after self column.old a b }
    {
        match column.stage {
            0 => {
                column.load(0, a, b);
                column.answer(1, b, 0)
            }
            1 => {
                self.calculate(column, a, b);
                column.answer(2, column.bytes[3], self.wait())
            }
            2 => column.answer(3, column.bytes[2], 0),
            3 => column.answer(4, column.bytes[1], 0),
            _ => column.answer(0, column.bytes[0], 0),
        }
    }
}

impl Aes {
    // A unit whose contents are zeros, unheld.
    pub fn new() -> Aes
        ensures { aes_contents result ≡ fresh 2 8 }
    {
        Aes {
            mix: Sequence::new(),
            unmix: Sequence::new(),
        }
    }
}

impl Unit for Aes {
    ghost contents = { aes_contents };

    ghost codes = { λ _. aes_codes };

    ghost operates = { aes_operates };

    ghost quiet = { planned_quiet aes_plan };

    ghost idle = { planned_idle aes_plan };

    ghost clean = { planned_clean aes_plan };

    ghost few = { λ _ k h. aes_few k h };

    fn operate(
        &mut self,
        code: u8,
        a: Marked,
        b: Marked,
        _status: Status,
    ) -> Result<Reply, Refusal> {
        match code {
            0 => Ok(Reply::plain(
                Marked {
                    byte: substitute(a.byte),
                    ..a
                },
                0,
            )),
            1 => Ok(Reply::plain(
                Marked {
                    byte: restore(a.byte),
                    ..a
                },
                0,
            )),
            2 => Ok(Direction::Mix.call(&mut self.mix, a, b)),
            3 => Ok(Direction::Unmix.call(&mut self.unmix, a, b)),
            _ => Err(Refusal::LackingCode),
        }
    }
}
