// Numbers of a line.
ghost use Rattle.std.specs.Prelude.{◌≡◌, ◌≤◌, ◌<◌, IfOk, IfSome};
ghost use Rattle.script.specs.Numbers.{digit_in, radix, base_of, digits_of, value_from, capped, number_up_to};

use super::faults::Fault;

// What a digit counts for.
#[derive(Clone, Copy)]
pub(crate) enum Base {
    Ten = 10,
    Sixteen = 16,
}

// No number is read further than this, which is too large for any use.
const CAP: u64 = 0x1_0000_0000;

impl Base {
    fn radix(self) -> u32
        ensures value { result ≡ radix self }
        ensures low { 2 ≤ result }
        ensures high { result ≤ 16 }
    {
        self as u32
    }

    // The value of a digit, of either case where it is a hex digit.
    pub(crate) fn digit(self, b: u8) -> Option<u32>
        ensures value { result ≡ digit_in self b }
        ensures small { IfSome result (λ d. d < 16) }
    {
        char::from(b).to_digit(self.radix())
    }
}

// A word without its 0x, and what its digits count for.
fn digits(word: &[u8]) -> (Base, &[u8])
    ensures base { result.0 ≡ base_of word.now }
    ensures digits { result.1.now ≡ digits_of word.now }
{
    match word {
        [b'0', b'x', digits @ ..] => (Base::Sixteen, digits),
        _ => (Base::Ten, word),
    }
}

// The value of some digits, or the cap where it is larger.
fn value(base: Base, digits: &[u8]) -> Option<u64>
    ensures { result ≡ capped (value_from base 0 digits.now) }
{
    let mut value = 0;
    for b in digits {
        let digit = base.digit(*b)?;
        value = (value * u64::from(base.radix()) + u64::from(digit)).min(CAP);
    }
    Some(value)
}

// The number that a word says, if it is no larger than it may be.
pub(crate) fn read_number(word: &[u8], most: u32) -> Result<u32, Fault>
    ensures value { result ≡ number_up_to most word.now }
    ensures bound { IfOk result (λ n. n ≤ most) }
{
    let (base, digits) = digits(word);
    if digits.is_empty() {
        return Err(Fault::NoNumber);
    }
    let value = value(base, digits).ok_or(Fault::NoNumber)?;
    if value > u64::from(most) {
        return Err(Fault::TooLarge);
    }
    Ok(value as u32)
}
