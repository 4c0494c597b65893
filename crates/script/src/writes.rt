// Lines as they are written.
ghost use Rattle.std.specs.Prelude.{◌≡◌, ◌<◌, [], ◌∷◌, IfOk};
ghost use Rattle.script.specs.Lines.{said_of};
ghost use Rattle.script.specs.Text.{hex_digit, hex_of};
ghost use Rattle.script.specs.Writes.{Adds, number_text, u8_text, u16_text, seal_text, operand_words, trail, written_of, Small, Sized, ReadBack};

use super::labels::first_word;
use super::lines::Line;
use super::operands::Operand;
use std::alloc::{AllocError, Global};
use terminal::interval::Seal;

// The digit of a number below 16; char::from_digit answers an Option of a char, to be taken apart for each digit.
fn hex_digit(n: u8) -> u8
    requires { n < 16 }
    ensures { result ≡ hex_digit n }
{
    if n < 10 { b'0' + n } else { b'a' - 10 + n }
}

// Adds the digits of some bytes, two to a byte: in lower case and to bytes, and so not by the String of `write_hex`.
fn push_hex(text: &mut Vec<u8>, bytes: &[u8]) -> Result<(), AllocError>
    ensures { Adds text.old.items text.new.items result (hex_of bytes.now) }
{
    for b in bytes {
        text.push(hex_digit(*b / 16))?;
        text.push(hex_digit(*b % 16))?;
    }
    Ok(())
}

// Adds a word.
pub(crate) fn push_word(text: &mut Vec<u8>, word: &[u8]) -> Result<(), AllocError>
    ensures { Adds text.old.items text.new.items result (32 ∷ word.now) }
{
    text.push(b' ')?;
    text.extend_from_slice(word)?;
    Ok(())
}

// Adds a word of hex digits.
fn push_bytes(text: &mut Vec<u8>, bytes: &[u8]) -> Result<(), AllocError>
    ensures { Adds text.old.items text.new.items result (32 ∷ hex_of bytes.now) }
{
    text.push(b' ')?;
    push_hex(text, bytes)
}

// Adds the number that has these bytes, the highest first.
pub(crate) fn push_number(text: &mut Vec<u8>, bytes: &[u8]) -> Result<(), AllocError>
    ensures { Adds text.old.items text.new.items result (32 ∷ number_text bytes.now) }
{
    text.extend_from_slice(b" 0x")?;
    push_hex(text, bytes)
}

// Adds a value and bytes.
fn push_with_bytes<T: Operand>(text: &mut Vec<u8>, n: T, bytes: &[u8]) -> Result<(), AllocError>
    ensures text { Adds text.old.items text.new.items result (trail (T.written n ∷ (hex_of bytes.now ∷ []))) }
    ensures fits { Small bytes.now }
{
    n.push_to(text)?;
    push_bytes(text, bytes)
}

fn push_put(text: &mut Vec<u8>, address: u16, byte: u8) -> Result<(), AllocError>
    ensures { Adds text.old.items text.new.items result (trail (u16_text address ∷ (u8_text byte ∷ []))) }
{
    address.push_to(text)?;
    byte.push_to(text)
}

fn push_entry(text: &mut Vec<u8>, name: &[u8], offset: u16, byte: u8) -> Result<(), AllocError>
    ensures { Adds text.old.items text.new.items result (trail (name.now ∷ (u16_text offset ∷ (u8_text byte ∷ [])))) }
{
    push_word(text, name)?;
    push_put(text, offset, byte)
}

fn push_open(
    text: &mut Vec<u8>,
    name: &[u8],
    seal: Seal,
    first: u16,
    count: u16,
) -> Result<(), AllocError>
    ensures { Adds text.old.items text.new.items result (trail (name.now ∷ (seal_text seal ∷ (u16_text first ∷ (u16_text count ∷ []))))) }
{
    push_word(text, name)?;
    seal.push_to(text)?;
    first.push_to(text)?;
    count.push_to(text)
}

// Adds the words that follow the first.
fn push_operands(text: &mut Vec<u8>, line: &Line) -> Result<(), AllocError>
    ensures text { Adds text.old.items text.new.items result (trail (operand_words (said_of line.now))) }
    ensures fits { Sized (said_of line.now) }
{
    match line {
        Line::Memory(n) => n.push_to(text),
        Line::Bytes(address, bytes) => push_with_bytes(text, *address, bytes),
        Line::Held(address, bytes) => push_with_bytes(text, *address, bytes),
        Line::Board(page) => page.push_to(text),
        Line::Unit(name) => name.push_to(text),
        Line::Load(pairs, program) => push_with_bytes(text, *pairs, program),
        Line::Raise(n) => n.push_to(text),
        Line::Run(budget) => budget.push_to(text),
        Line::Put(address, byte) => push_put(text, *address, *byte),
        Line::Open(name, seal, first, count) => push_open(text, name, *seal, *first, *count),
        Line::Entry(name, offset, byte) => push_entry(text, name, *offset, *byte),
        Line::Close(name) => push_word(text, name),
        Line::Cell(address) => address.push_to(text),
        Line::Register(n) => n.push_to(text),
        Line::Start | Line::Status => Ok(()),
    }
}

// A line as it is written.
pub fn write_line(heap: Global, line: &Line) -> Result<Vec<u8>, AllocError>
    ensures text { IfOk result (λ v. v.items ≡ written_of (said_of line.now)) }
    ensures read_back { IfOk result (λ v. ReadBack (said_of line.now) v.items) }
{
    let mut text = Vec::from_slice(heap, first_word(line).as_bytes())?;
    push_operands(&mut text, line)?;
    Ok(text)
}
