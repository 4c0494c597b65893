// What the calls of a script come to.
ghost use Rattle.std.specs.Prelude.{◌≡◌, Some};
ghost use Rattle.player.specs.Totals.{counted, totals_text};

use std::fmt;
use terminal::calls::{Answer, Unmade};

#[derive(Clone, Copy, Default)]
pub struct Totals {
    calls: u64,
    refused: u64,
    steps: u64,
    cycles: u64,
}

impl Totals {
    // One call more.
    pub fn count(&mut self, answer: &Result<Answer, Unmade>)
        ensures { self.new ≡ counted self.old answer.now }
    {
        self.calls = self.calls.saturating_add(1);
        match answer {
            Err(_) => self.refused = self.refused.saturating_add(1),
            Ok(Answer::Ran(run)) => {
                self.steps = self.steps.saturating_add(run.steps as u64);
                self.cycles = self.cycles.saturating_add(run.cycles);
            }
            _ => {}
        }
    }
}

impl fmt::Display for Totals {
    ghost output = { λ t. Some (totals_text t) };

    fn fmt<W: fmt::Write>(&self, f: &mut fmt::Formatter<W>) -> fmt::Result {
        let Totals {
            calls,
            refused,
            steps,
            cycles,
        } = *self;
        let accepted = calls.saturating_sub(refused);
        write!(
            f,
            "{calls} calls, {accepted} accepted, {refused} refused, {steps} steps, {cycles} cycles"
        )
    }
}
