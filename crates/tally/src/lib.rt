// How many values came out as published, and how many did not.
#![tactic(auto)]

ghost use Rattle.std.specs.Prelude.{◌≡◌, codes, if◌then◌else◌, Some};
ghost use Rattle.tally.specs.Counts.{counted, tally_text};

use std::fmt;

#[derive(Clone, Copy, Default)]
pub struct Tally {
    pub right: u32,
    pub wrong: u32,
}

impl Tally {
    // One value more; what is printed of it.
    pub fn count(&mut self, right: bool) -> &'static str
        ensures told { result.now ≡ (if right then codes "ok" else codes "WRONG") }
        ensures counted { self.new ≡ counted self.old right }
    {
        if right {
            self.right = self.right.saturating_add(1);
            "ok"
        } else {
            self.wrong = self.wrong.saturating_add(1);
            "WRONG"
        }
    }
}

impl fmt::Display for Tally {
    ghost output = { λ t. Some (tally_text t) };

    fn fmt<W: fmt::Write>(&self, f: &mut fmt::Formatter<W>) -> fmt::Result {
        let Tally { right, wrong } = *self;
        write!(f, "{right} right, {wrong} wrong")
    }
}
