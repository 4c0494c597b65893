// Answers as text.
ghost use Rattle.std.specs.Prelude.{◌≡◌, ◌++◌, IfOk, Some, string_bytes, codes};
ghost use Rattle.terminal.specs.Numbers.{number};
ghost use Rattle.script.specs.Answers.{ending_text, run_text, yes_no, standing_text, refusal_text, answer_text};

use super::causes::FaultShown;
use super::text::{HexByte, HexPlace};
use cpu::machine::{Ending, Run};
use std::alloc::{AllocError, Global};
use std::fmt;
use terminal::calls::{Answer, Refusal, Standing, Unmade};

// The number of a refusal.
pub fn refusal_number(refusal: Refusal) -> u8
    ensures { result ≡ number refusal }
{
    refusal as u8
}

// How a run ended, to be written.
#[derive(Clone, Copy)]
struct EndingShown(Ending);

impl fmt::Display for EndingShown {
    ghost output = { λ x. Some (ending_text x.0) };

    fn fmt<W: fmt::Write>(&self, f: &mut fmt::Formatter<W>) -> fmt::Result {
        match self.0 {
            Ending::Said(byte) => write!(f, "said {}", HexByte(byte)),
            Ending::Ended => write!(f, "ended"),
            Ending::Spent => write!(f, "spent"),
            Ending::Waiting => write!(f, "waiting"),
            Ending::Fault(fault) => write!(f, "{}", FaultShown(fault)),
        }
    }
}

// A run, to be written.
#[derive(Clone, Copy)]
struct RunShown(Run);

impl fmt::Display for RunShown {
    ghost output = { λ x. Some (run_text x.0) };

    fn fmt<W: fmt::Write>(&self, f: &mut fmt::Formatter<W>) -> fmt::Result {
        let Run {
            steps,
            cycles,
            ending,
        } = self.0;
        write!(f, "{steps} steps, {cycles} cycles, {}", EndingShown(ending))
    }
}

// An answer by a word: what a bool writes of itself is true or false.
fn yes_no(answer: bool) -> &'static str
    ensures { result.now ≡ yes_no answer }
{
    if answer { "yes" } else { "no" }
}

// Where a terminal stands, to be written.
#[derive(Clone, Copy)]
struct StandingShown(Standing);

impl fmt::Display for StandingShown {
    ghost output = { λ x. Some (standing_text x.0) };

    fn fmt<W: fmt::Write>(&self, f: &mut fmt::Formatter<W>) -> fmt::Result {
        let Standing {
            mode,
            pc,
            sp,
            enabled,
            latched,
            handling,
        } = self.0;
        let pc = HexPlace(pc);
        let handler = yes_no(handling);
        write!(
            f,
            "{mode}, pc {pc}, sp 0x{sp:04x}, ie 0x{enabled:04x}, lines 0x{latched:04x}, handler {handler}"
        )
    }
}

// A refusal, to be written.
#[derive(Clone, Copy)]
struct RefusalShown(Refusal);

impl fmt::Display for RefusalShown {
    ghost output = { λ x. Some (refusal_text x.0) };

    fn fmt<W: fmt::Write>(&self, f: &mut fmt::Formatter<W>) -> fmt::Result {
        write!(f, "refused {}", refusal_number(self.0))
    }
}

// What a call answered, or why it was not made.
pub fn answer_text(heap: Global, answer: &Result<Answer, Unmade>) -> Result<String, AllocError>
    ensures { IfOk result (λ t. string_bytes t ≡ answer_text answer.now) }
{
    match answer {
        Ok(Answer::Done | Answer::Opened(_)) => String::from_str(heap, "done"),
        Ok(Answer::Ran(run)) => format!(in heap; "{}", RunShown(*run)),
        Ok(Answer::Byte(byte)) => format!(in heap; "{}", HexByte(*byte)),
        Ok(Answer::Stands(standing)) => format!(in heap; "{}", StandingShown(*standing)),
        Err(Unmade::Refused(refusal)) => format!(in heap; "{}", RefusalShown(*refusal)),
        Err(Unmade::Unclosed(unclosed)) => format!(in heap; "{}", RefusalShown(unclosed.refusal)),
    }
}

// A label and what its call answered.
pub fn answer_line(
    heap: Global,
    label: &[u8],
    answer: &Result<Answer, Unmade>,
) -> Result<Vec<u8>, AllocError>
    ensures { IfOk result (λ v. v.items ≡ label.now ++ (codes ": " ++ answer_text answer.now)) }
{
    let text = answer_text(heap, answer)?;
    let mut line = Vec::from_slice(heap, label)?;
    line.extend_from_slice(b": ")?;
    line.extend_from_slice(text.as_bytes())?;
    Ok(line)
}
