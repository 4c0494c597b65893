// A program as lines, one to an instruction.
ghost use Rattle.std.specs.Prelude.{◌≡◌, ◌-◌, ◌^◌, ◌≤◌, length, IfOk, Some, Ok, string_bytes};
ghost use Rattle.listing.specs.Hex.{read_hex};
ghost use Rattle.listing.specs.Lines.{Below, counted_to, words_text, line_of, word_at, size_of, lines_of, bytes_of, line_text, word_text, reading_text, counts_of, summary_text, lines_text, listing_text};

use isa::{Instruction, Refusal, Word, decode};
use std::alloc::{AllocError, Global};
use std::fmt;

// A line of a listing: a word, and what it says or why it cannot be read.
#[derive(Clone, Copy)]
pub struct Line {
    pub address: usize,
    pub word: Word,
    pub reading: Result<Instruction, Refusal>,
}

// How many lines of each sort a listing has.
#[derive(Clone, Copy, Default)]
pub struct Counts {
    pub instructions: usize,
    pub reserved: usize,
    pub cut_off: usize,
}

// The bytes of a word that was read: two where the instruction has two, else one.
fn word_at(first: u8, second: Option<u8>, reading: Result<Instruction, Refusal>) -> Word
    ensures { result ≡ word_at first second reading }
{
    match (reading, second) {
        (Ok(instruction), Some(second)) if instruction.length() == 2 => Word::Two(first, second),
        _ => Word::One(first),
    }
}

// The line of the word that begins with these bytes.
fn line_at(address: usize, first: u8, second: Option<u8>) -> Line
    ensures { result ≡ line_of address first second }
{
    let reading = decode(Some(first), second);
    Line {
        address,
        word: word_at(first, second, reading),
        reading,
    }
}

// How many bytes a word has.
fn size(word: Word) -> usize
    ensures { result ≡ size_of word }
{
    match word {
        Word::One(_) => 1,
        Word::Two(_, _) => 2,
    }
}

// The lines of a program; a word that cannot be read takes one byte.
pub fn lines(heap: Global, program: &[u8]) -> Result<Vec<Line>, AllocError>
    ensures lines { IfOk result (λ v. v.items ≡ lines_of 0 program.now) }
    ensures whole { IfOk result (λ v. bytes_of v.items ≡ program.now) }
{
    let mut lines = Vec::new(heap);
    let mut left = program;
    while let [first, rest @ ..] = left {
        let address = program.len() - left.len();
        let line = line_at(address, *first, rest.first().copied());
        lines.push(line)?;
        left = &left[size(line.word)..];
    }
    Ok(lines)
}

// The digits of a word, in the width of two bytes.
#[derive(Drop)]
struct Digits(Word);

impl fmt::Display for Digits {
    ghost output = { λ x. Some (word_text x.0) };

    fn fmt<W: fmt::Write>(&self, f: &mut fmt::Formatter<W>) -> fmt::Result {
        match self.0 {
            Word::One(a) => write!(f, "{a:02X}  "),
            Word::Two(a, b) => write!(f, "{a:02X}{b:02X}"),
        }
    }
}

// What a word says, or why it cannot be read.
#[derive(Drop)]
struct Reading(Result<Instruction, Refusal>);

impl fmt::Display for Reading {
    ghost output = { λ x. Some (reading_text x.0) };

    fn fmt<W: fmt::Write>(&self, f: &mut fmt::Formatter<W>) -> fmt::Result {
        match self.0 {
            Ok(instruction) => write!(f, "{instruction}"),
            Err(Refusal::ReservedWord) => write!(f, "reserved"),
            Err(_) => write!(f, "cut off"),
        }
    }
}

// A line as text: address, bytes, and what they say.
impl fmt::Display for Line {
    ghost output = { λ line. Some (line_text line) };

    fn fmt<W: fmt::Write>(&self, f: &mut fmt::Formatter<W>) -> fmt::Result {
        let address = self.address % 4096;
        let word = Digits(self.word);
        let reading = Reading(self.reading);
        write!(f, "0x{address:03X}  {word}  {reading}")
    }
}

// A line as a string of its own.
pub fn line_text(heap: Global, line: Line) -> Result<String, AllocError>
    ensures { IfOk result (λ t. string_bytes t ≡ line_text line) }
{
    line.to_string(heap)
}

impl Counts {
    // One line more.
    fn with(self, reading: Result<Instruction, Refusal>) -> Counts
        requires { Below self (2 ^ 64 - 1) }
        ensures { result ≡ counted_to reading self }
    {
        match reading {
            Ok(_) => Counts {
                instructions: self.instructions + 1,
                ..self
            },
            Err(Refusal::ReservedWord) => Counts {
                reserved: self.reserved + 1,
                ..self
            },
            Err(_) => Counts {
                cut_off: self.cut_off + 1,
                ..self
            },
        }
    }
}

// Counts the lines of each sort.
pub fn count(lines: &[Line]) -> Counts
    ensures { result ≡ counts_of lines.now }
{
    let mut counts = Counts::default();
    for line in lines {
        counts = counts.with(line.reading);
    }
    counts
}

// The last line of a listing.
#[derive(Drop)]
struct Summary {
    bytes: usize,
    counts: Counts,
}

impl fmt::Display for Summary {
    ghost output = { λ x. Some (summary_text x.bytes x.counts) };

    fn fmt<W: fmt::Write>(&self, f: &mut fmt::Formatter<W>) -> fmt::Result {
        let bytes = self.bytes;
        let Counts {
            instructions,
            reserved,
            cut_off,
        } = self.counts;
        write!(
            f,
            "{bytes} bytes, {instructions} instructions, {reserved} reserved, {cut_off} cut off"
        )
    }
}

// What is counted, as a string of its own.
pub fn summary_text(heap: Global, bytes: usize, counts: Counts) -> Result<String, AllocError>
    ensures { IfOk result (λ t. string_bytes t ≡ summary_text bytes counts) }
{
    Summary { bytes, counts }.to_string(heap)
}

// Lines one under another.
fn lines_text(heap: Global, lines: &[Line]) -> Result<String, AllocError>
    ensures { IfOk result (λ t. string_bytes t ≡ lines_text lines.now) }
{
    let mut text = String::new(heap);
    for line in lines {
        writeln!(text, "{line}")?;
    }
    Ok(text)
}

// A program's listing.
pub fn listing_text(heap: Global, program: &[u8]) -> Result<String, AllocError>
    ensures text { IfOk result (λ t. string_bytes t ≡ listing_text program.now) }
    ensures read_back { IfOk result (λ _. length program.now ≤ 4096 → read_hex (words_text (lines_of 0 program.now)) ≡ Ok program.now) }
{
    let lines = lines(heap, program)?;
    let text = lines_text(heap, lines.as_slice())?;
    let summary = Summary {
        bytes: program.len(),
        counts: count(lines.as_slice()),
    };
    format!(in heap; "{text}{summary}\n")
}
