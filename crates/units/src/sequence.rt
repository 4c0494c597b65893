// Four bytes on their way through a sequence of calls: the first calls load them, one calculates, and the last ones unload the results.
ghost use Rattle.std.specs.Prelude.{◌≡◌, ◌+◌, ◌≤◌, map, slice_set};
ghost use Rattle.units.specs.Meaning.{fresh, plain};
ghost use Rattle.units.specs.Plans.{joined};
ghost use Rattle.units.specs.Sequences.{sequence_contents};

use super::unit::Reply;
use marks::{Mark, Marked};

// `stage` calls were made: a number and no enum, since a unit contains a list of stage numbers.
#[derive(Clone, Copy)]
pub(crate) struct Sequence {
    pub(crate) stage: u8,
    pub(crate) bytes: [Marked; 4],
}

// The joined mark of some bytes.
pub(crate) fn joined(bytes: &[Marked]) -> Mark
    ensures { result ≡ joined bytes.now }
{
    let mut mark = Mark::Unheld;
    for each in bytes {
        mark = mark.join(each.mark);
    }
    mark
}

impl Sequence {
    // Zeros, unheld, and no call made.
    pub(crate) fn new() -> Sequence
        ensures { sequence_contents result ≡ fresh 1 4 }
    {
        Sequence {
            stage: 0,
            bytes: [Marked::unheld(0); 4],
        }
    }

    // Puts two bytes in, from a place on.
    pub(crate) fn load(&mut self, at: usize, a: Marked, b: Marked)
        requires { at ≤ 2 }
        ensures stage { self.new.stage ≡ self.old.stage }
        ensures bytes { self.new.bytes ≡ slice_set (slice_set self.old.bytes at a) (at + 1) b }
    {
        self.bytes[at] = a;
        self.bytes[at + 1] = b;
    }

    // Replaces all four bytes by results with one mark: one by one, since a call that maps the array takes longer.
    pub(crate) fn replace(&mut self, bytes: [u8; 4], mark: Mark)
        ensures stage { self.new.stage ≡ self.old.stage }
        ensures bytes { self.new.bytes ≡ map (λ b. record { byte = b; mark = mark }) bytes }
    {
        let [p, q, r, s] = bytes;
        self.bytes = [
            Marked { byte: p, mark },
            Marked { byte: q, mark },
            Marked { byte: r, mark },
            Marked { byte: s, mark },
        ];
    }

    // Ends a call: the stage that is next, and the answer.
    pub(crate) fn answer(&mut self, next: u8, byte: Marked, wait: u8) -> Reply
        ensures stage { self.new.stage ≡ next }
        ensures bytes { self.new.bytes ≡ self.old.bytes }
        ensures reply { result ≡ plain byte wait }
    {
        self.stage = next;
        Reply::plain(byte, wait)
    }
}
