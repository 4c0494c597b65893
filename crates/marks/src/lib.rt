// Marked bytes: a byte of an open interval is held until the interval's close, and so is all that is worked out from it.
#![tactic(auto)]

ghost use Rattle.std.specs.Prelude.{◌≡◌};
ghost use Rattle.marks.specs.Marks.{held, join, mark_of, mark_byte, shown, unheld, lifted, JoinLaws};

// Whether a byte may be shown, each mark by its byte in memory.
#[derive(Clone, Copy, Debug, PartialEq, Eq)]
pub enum Mark {
    Unheld = 0,
    Held = 1,
}

// A byte with its mark.
#[derive(Clone, Copy, Debug, PartialEq, Eq)]
pub struct Marked {
    pub byte: u8,
    pub mark: Mark,
}

impl Mark {
    pub fn is_held(self) -> bool
        ensures { result ≡ held self }
    {
        self == Mark::Held
    }

    // Held if one of the two is.
    pub fn join(self, other: Mark) -> Mark
        ensures joined { result ≡ join self other }
        ensures laws { JoinLaws }
    {
        match self {
            Mark::Held => Mark::Held,
            Mark::Unheld => other,
        }
    }
}

// The mark that a byte of memory says: 0 is unheld, any other held.
impl From<u8> for Mark {
    ghost from_gives = { λ b m. m ≡ mark_of b };

    fn from(byte: u8) -> Mark {
        if byte == 0 { Mark::Unheld } else { Mark::Held }
    }
}

// The mark as a byte of memory, 0 or 1.
impl From<Mark> for u8 {
    ghost from_gives = { λ m b. b ≡ mark_byte m };

    fn from(mark: Mark) -> u8 {
        mark as u8
    }
}

impl Marked {
    // A byte that may be shown.
    pub fn unheld(byte: u8) -> Marked
        ensures { result ≡ unheld byte }
    {
        Marked {
            byte,
            mark: Mark::Unheld,
        }
    }

    // The byte, if it may be shown.
    pub fn shown(self) -> Option<u8>
        ensures { result ≡ shown self }
    {
        match self.mark {
            Mark::Unheld => Some(self.byte),
            Mark::Held => None,
        }
    }

    // The byte, now unheld.
    pub fn lifted(self) -> Marked
        ensures { result ≡ lifted self }
    {
        Marked::unheld(self.byte)
    }
}
