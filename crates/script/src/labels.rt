// The names that lines go by in answers.
ghost use Rattle.std.specs.Prelude.{◌≡◌, ◌∷◌, ◌++◌, IfOk};
ghost use Rattle.script.specs.Labels.{first_of, label_of};
ghost use Rattle.script.specs.Lines.{said_of};

use super::lines::Line;
use std::alloc::{AllocError, Global};

// The first word of a line: text, not its Display, which would be all that is written of the line.
pub(crate) fn first_word(line: &Line) -> &'static str
    ensures { result.now ≡ first_of (said_of line.now) }
{
    match line {
        Line::Memory(_) => "memory",
        Line::Bytes(..) => "bytes",
        Line::Held(..) => "held",
        Line::Board(_) => "board",
        Line::Unit(_) => "unit",
        Line::Load(..) => "load",
        Line::Start => "start",
        Line::Raise(_) => "raise",
        Line::Run(_) => "run",
        Line::Put(..) => "put",
        Line::Open(..) => "open",
        Line::Entry(..) => "entry",
        Line::Close(_) => "close",
        Line::Cell(_) => "cell",
        Line::Register(_) => "register",
        Line::Status => "status",
    }
}

// A word and a name after it.
fn named(heap: Global, word: &str, name: &[u8]) -> Result<Vec<u8>, AllocError>
    ensures { IfOk result (λ v. v.items ≡ word.now ++ (32 ∷ name.now)) }
{
    let mut text = Vec::from_slice(heap, word.as_bytes())?;
    text.push(b' ')?;
    text.extend_from_slice(name)?;
    Ok(text)
}

// What a line goes by: its first word, and its name where it has one.
pub fn label(heap: Global, line: &Line) -> Result<Vec<u8>, AllocError>
    ensures { IfOk result (λ v. v.items ≡ label_of (said_of line.now)) }
{
    match line {
        Line::Open(name, ..) | Line::Entry(name, ..) | Line::Close(name) => {
            named(heap, first_word(line), name)
        }
        _ => Vec::from_slice(heap, first_word(line).as_bytes()),
    }
}
