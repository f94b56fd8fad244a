// The keystream part. Keystream that is used twice gives the audio away: include/delugash.h says what that asks of a caller.
ghost use Rattle.std.specs.Prelude.{◌≡◌};
ghost use Rattle.keystream.specs.Call.{stretch_call};

use keystream::call::stretch_call;

#[unsafe(no_mangle)]
pub extern "C" fn delugash_stretch(
    key: &[u8],
    salt: &[u8],
    ssrc: u32,
    index: u64,
    start: u64,
    buf: &mut [u8],
) -> u32
    ensures { (result ≡ (stretch_call key.now salt.now ssrc index start buf.old).number) × (buf.new ≡ (stretch_call key.now salt.now ssrc index start buf.old).bytes) }
{
    stretch_call(key, salt, ssrc, index, start, buf)
}
