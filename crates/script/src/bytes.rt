// Bytes written as hex digits.
ghost use Rattle.std.specs.Prelude.{◌≡◌, vec_items};
ghost use Rattle.script.specs.Bytes.{pair_of, bytes_of};
ghost use Rattle.script.specs.Reads.{Reads};

use super::faults::{Fault, ReadError};
use super::numbers::Base;
use std::alloc::Global;

// The byte of two digits.
fn pair(a: u8, b: u8) -> Option<u8>
    ensures { result ≡ pair_of a b }
{
    let high = Base::Sixteen.digit(a)?;
    let low = Base::Sixteen.digit(b)?;
    Some((high * 16 + low) as u8)
}

// The bytes whose digits a word has, two to a byte.
pub(crate) fn read_bytes(heap: Global, word: &[u8]) -> Result<Vec<u8>, ReadError>
    ensures { Reads vec_items result (bytes_of word.now) }
{
    let mut bytes = Vec::new(heap);
    let mut rest = word;
    while let [a, b, others @ ..] = rest {
        bytes.push(pair(*a, *b).ok_or(Fault::NoBytes)?)?;
        rest = others;
    }
    if rest.is_empty() {
        Ok(bytes)
    } else {
        Err(Fault::NoBytes.into())
    }
}
