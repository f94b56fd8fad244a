// The keystream part on a session key and a session salt that are lent: the call of customers, for programs in Rattle, C and Rust alike.
// Keystream that is used twice gives the audio away, and nothing here remembers what was used: include/delugash.h says what that asks of a caller.
ghost use Rattle.std.specs.Prelude.{◌≡◌};
ghost use Rattle.keystream.specs.Call.{stretch_call};

use crate::stretch::stretch;
use bits::arrays::array;
use bits::refusal::Border;

// 0, and the keystream from byte `start` on over the whole buffer; or the number of a refusal, as C takes it, and the buffer as it was.
pub fn stretch_call(
    key: &[u8],
    salt: &[u8],
    ssrc: u32,
    index: u64,
    start: u64,
    buf: &mut [u8],
) -> u32
    ensures { (result ≡ (stretch_call key.now salt.now ssrc index start buf.old).number) × (buf.new ≡ (stretch_call key.now salt.now ssrc index start buf.old).bytes) }
{
    let wrong = key.len() != 16 || salt.len() != 14;
    if wrong {
        return u32::from(Border::Sizes);
    }
    match stretch(array(key), array(salt), ssrc, index, start, buf) {
        Ok(()) => 0,
        Err(refusal) => u32::from(refusal),
    }
}
