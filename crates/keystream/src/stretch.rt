// The keystream part: a stretch of the keystream of a key, a salt, an SSRC and an index, from any byte on.
ghost use Rattle.std.specs.Prelude.{◌≡◌, false, length};
ghost use Rattle.bits.specs.Refusals.{outcome_of};
ghost use Rattle.stretches.specs.Stretch.{is_large};
ghost use Rattle.keystream.specs.Stretch.{stretch_of};

use aes::blocks::{Cipher, round_keys};
use aes_counter::start::packet_start;
use aes_keystream::keystream::xor_stretch;
use aes_keystream::seek::seek;
use aes_tables::tables::{self, RoundEntries, SboxEntries, Tables};
use bits::refusal::Refusal;

// The bytes of keystream that RFC 3711 allows one packet index.
const END: u64 = 1048576;

// Whether a stretch of n bytes from `start` on passes that end. No sum is made, so none wraps.
fn is_large(start: u64, n: usize) -> bool
    ensures { result ≡ is_large start n }
{
    let past = END < start;
    past || END - start < (n as u64)
}

// A stretch that is not LARGE.
fn stretch_within(
    key: [u8; 16],
    salt: [u8; 14],
    ssrc: u32,
    index: u64,
    start: usize,
    buf: &mut [u8],
)
    requires { is_large start (length buf.old) ≡ false }
    ensures { buf.new ≡ (stretch_of key salt ssrc index start buf.old).bytes }
{
    let sbox = tables::sbox();
    let round = tables::round_table();
    let tables = Tables {
        sbox: SboxEntries { bytes: &sbox },
        round: RoundEntries { bytes: &round },
    };
    let keys = round_keys(tables.sbox, key);
    let cipher = Cipher {
        tables,
        keys: &keys,
        key,
    };
    let blocks = packet_start(cipher, salt, ssrc, index);
    let s = seek(&blocks, start);
    xor_stretch(&blocks, buf, s);
}

// The keystream from byte `start` on over the whole buffer; or LARGE, and the buffer as it was.
pub fn stretch(
    key: [u8; 16],
    salt: [u8; 14],
    ssrc: u32,
    index: u64,
    start: u64,
    buf: &mut [u8],
) -> Result<(), Refusal>
    ensures { (outcome_of result ≡ (stretch_of key salt ssrc index start buf.old).number) × (buf.new ≡ (stretch_of key salt ssrc index start buf.old).bytes) }
{
    if is_large(start, buf.len()) {
        return Err(Refusal::Large);
    }
    stretch_within(key, salt, ssrc, index, start as usize, buf);
    Ok(())
}
