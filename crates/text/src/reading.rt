// Words of a line read as numbers and bytes; `None` for a word that is none.
ghost use Rattle.std.specs.Prelude.{◌≡◌, ◌^◌, ◌<◌, ◌⊎◌, [], Ok, IfSome};
ghost use Rattle.hex.specs.Hex.{decode_of, decode_sized};

use arrayvec::ArrayVec;
use hex::FromHex;
use std::str;
use std::str::FromStr;

// A number that its type holds: digits only, and leading zeros are allowed. `parse` alone would also take a sign.
pub fn number<T: FromStr>(word: &[u8]) -> Option<T>
where
    T::Err: Drop,
    ensures { IfSome result (λ n. T.from_str_gives word.now (Ok n)) }
{
    if !word.iter().all(|b| b.is_ascii_digit()) {
        return None;
    }
    str::from_utf8(word).ok()?.parse().ok()
}

// The index of a packet: at most 281474976710655.
pub fn index(word: &[u8]) -> Option<u64>
    ensures { IfSome result (λ n. n < 2 ^ 48) }
{
    let n = number(word)?;
    if n < 1 << 48 { Some(n) } else { None }
}

// Hex has its letters in lower case.
fn lower_case<'a>(word: &'a [u8]) -> Option<&'a [u8]>
    ensures { IfSome result (λ w. w.now ≡ word.entry.now) }
{
    if word.iter().any(|b| b.is_ascii_uppercase()) {
        None
    } else {
        Some(word)
    }
}

// At most N bytes in hex, or `-` for none.
pub fn bytes<const N: usize>(word: &[u8]) -> Option<ArrayVec<u8, N>>
    ensures { IfSome result (λ b. (b.items ≡ []) ⊎ (decode_of word.now ≡ Ok b.items)) }
{
    if word == b"-".as_slice() {
        return Some(ArrayVec::new());
    }
    if word.is_empty() {
        return None;
    }
    let mut bytes = ArrayVec::from([0; N]);
    bytes.truncate(word.len() / 2);
    hex::decode_to_slice(lower_case(word)?, &mut bytes).ok()?;
    Some(bytes)
}

// Exactly N bytes in hex.
pub fn array<const N: usize>(word: &[u8]) -> Option<[u8; N]>
    ensures { IfSome result (λ a. decode_sized word.now N ≡ Ok a) }
{
    <[u8; N]>::from_hex(lower_case(word)?).ok()
}
