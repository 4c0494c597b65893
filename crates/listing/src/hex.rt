// Programs as hex digits.
ghost use Rattle.std.specs.Prelude.{◌≡◌, ◌<◌, ◌≤◌, length, IfOk, Ok, string_bytes};
ghost use Rattle.listing.specs.declared.hex.Fault.TheVariants.{NoMemory};
ghost use Rattle.isa.specs.Text.{hex_digit};
ghost use Rattle.listing.specs.Digits.{digit_of, hex_of};
ghost use Rattle.listing.specs.Hex.{is_blank, read_hex, ReadAs};
ghost use Rattle.listing.specs.Reader.{Small, Took, TookDigit};

use std::alloc::{AllocError, AllocFailed, Global};

// The most bytes that a program has.
pub const MOST_BYTES: usize = 4096;

// Why a text is no program, with the offset of the character at fault.
#[derive(Clone, Copy, Debug, PartialEq, Eq)]
pub enum Fault {
    NoDigit { at: usize, byte: u8 },
    OddDigits { at: usize },
    TooLong { at: usize },
    NoMemory,
}

impl<T: Drop> From<AllocFailed<T>> for Fault {
    ghost from_gives = { λ _ fault. fault ≡ NoMemory };

    fn from(_refused: AllocFailed<T>) -> Fault {
        Fault::NoMemory
    }
}

// A digit that waits for its second.
#[derive(Clone, Copy)]
struct Digit {
    at: usize,
    value: u8,
}

// A text that has been read up to some offset.
#[derive(Drop)]
struct Reader {
    bytes: Vec<u8>,
    first: Option<Digit>,
    in_comment: bool,
}

// The digit of a number below 16.
fn hex_digit(n: u8) -> char
    requires { n < 16 }
    ensures { result ≡ hex_digit n }
{
    let code = if n < 10 { b'0' + n } else { b'A' - 10 + n };
    code as char
}

// The value of a hex digit in either case.
fn digit_value(b: u8) -> Option<u8>
    ensures { result ≡ digit_of b }
{
    char::from(b).to_digit(16).map(|value| value as u8)
}

// The same test stands for words of scripts: a crate for one line of code would be no plainer.
fn is_blank(b: u8) -> bool
    ensures { result ≡ is_blank b }
{
    b == b' ' || b == b'\t' || b == b'\r'
}

impl Reader {
    // Reads the character at one offset.
    fn take(&mut self, at: usize, b: u8) -> Result<(), Fault>
        requires { Small self.old.first }
        ensures small { Small self.new.first }
        ensures took { Took self.old at b result self.new }
    {
        if b == b'\n' {
            self.in_comment = false;
            return Ok(());
        }
        if self.in_comment || is_blank(b) {
            return Ok(());
        }
        if b == b'#' {
            self.in_comment = true;
            return Ok(());
        }
        self.take_digit(at, b)
    }

    // Reads a character that has to be a digit.
    fn take_digit(&mut self, at: usize, b: u8) -> Result<(), Fault>
        requires { Small self.old.first }
        ensures small { Small self.new.first }
        ensures outside { self.new.in_comment ≡ self.old.in_comment }
        ensures took { TookDigit self.old at b result self.new }
    {
        let Some(value) = digit_value(b) else {
            return Err(Fault::NoDigit { at, byte: b });
        };
        match self.first {
            None => {
                if self.bytes.len() >= MOST_BYTES {
                    return Err(Fault::TooLong { at });
                }
                self.first = Some(Digit { at, value });
            }
            Some(first) => {
                self.bytes.push(first.value * 16 + value)?;
                self.first = None;
            }
        }
        Ok(())
    }
}

// The bytes whose digits stand in a text; blanks, line ends and comments are free.
pub fn read_hex(heap: Global, text: &[u8]) -> Result<Vec<u8>, Fault>
    ensures { ReadAs result (read_hex text.now) }
{
    let mut reader = Reader {
        bytes: Vec::new(heap),
        first: None,
        in_comment: false,
    };
    for (at, b) in text.iter().enumerate() {
        reader.take(at, *b)?;
    }
    match reader.first {
        Some(first) => Err(Fault::OddDigits { at: first.at }),
        None => Ok(reader.bytes),
    }
}

// The digits of some bytes, two to a byte: pushed one by one, since {:02X} takes several times as long.
pub fn write_hex(heap: Global, bytes: &[u8]) -> Result<String, AllocError>
    ensures digits { IfOk result (λ t. string_bytes t ≡ hex_of bytes.now) }
    ensures read_back { IfOk result (λ t. length bytes.now ≤ 4096 → read_hex (string_bytes t) ≡ Ok bytes.now) }
{
    let mut text = String::new(heap);
    for byte in bytes {
        text.push(hex_digit(*byte / 16))?;
        text.push(hex_digit(*byte % 16))?;
    }
    Ok(text)
}
