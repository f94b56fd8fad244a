// Bytes written as hex digits in lower case.
ghost use Rattle.std.specs.Prelude.{◌≡◌, ◌<◌, ◌/◌, ◌%◌, length, replicate};

use arrayvec::ArrayVec;
use std::fmt;
use text::reading::{array, bytes};

// Bytes to be printed, two digits each. No bytes are no digits, where a line of the call script has a dash.
#[derive(Clone, Copy)]
pub struct Hex<'a>(pub &'a [u8]);

impl fmt::Display for Hex<'_> {
    fn fmt<W: fmt::Write>(&self, f: &mut fmt::Formatter<W>) -> fmt::Result {
        for byte in self.0 {
            write!(f, "{byte:02x}")?;
        }
        Ok(())
    }
}

// The bytes of a word; none where it is no hex, or has more than N.
pub fn word<const N: usize>(word: &[u8]) -> ArrayVec<u8, N> {
    bytes(word).unwrap_or_default()
}

// The bytes of a word up to the first two digits that are none, with zeros after them; zeros alone where its digits are odd in number or make more than N.
pub fn padded<const N: usize>(word: &[u8]) -> [u8; N]
    ensures odd { length word.now % 2 ≡ 1 → result ≡ replicate N 0 }
    ensures long { N < length word.now / 2 → result ≡ replicate N 0 }
{
    let mut padded = [0; N];
    let (pairs, odd) = word.as_chunks::<2>();
    if odd.is_empty() && pairs.len() <= N {
        let bytes = pairs
            .iter()
            .map_while(|pair| array(pair).map(u8::from_be_bytes));
        for (to, byte) in padded.iter_mut().zip(bytes) {
            *to = byte;
        }
    }
    padded
}
