// The keystream of a packet, started (RFC 3711, 4.1.1).
ghost use Rattle.std.specs.Prelude.{◌≡◌, ℕ, ◌<◌};
ghost use Rattle.stretches.specs.Stretch.{keystream_end};
ghost use Rattle.aes.specs.Blocks.{byte_from};
ghost use Rattle.aes_counter.specs.Keystream.{keystream_of};

use crate::counter::iv;
use aes::blocks::{Blocks, Cipher, start_at};

// What its blocks are made from: the 2^16 blocks that RFC 3711 allows a packet are its keystream.
pub fn packet_start<'a>(cipher: Cipher<'a>, salt: [u8; 14], ssrc: u32, index: u64) -> Blocks<'a>
    ensures key_value { result.cipher.key ≡ cipher.entry.key }
    ensures by_index { (k : ℕ) → k < keystream_end → byte_from result.cipher.key result.block k ≡ keystream_of cipher.entry.key salt ssrc index k }
{
    start_at(cipher, iv(salt, ssrc, index))
}
