// The keystream of a packet onto a portion of the buffer, which has a gap and runs to the buffer's end.
ghost use Rattle.std.specs.Prelude.{◌≡◌, ◌+◌, ◌≤◌, length};
ghost use Rattle.bits.specs.Xor.{xor_pad};
ghost use Rattle.aes.specs.Blocks.{byte_from};
ghost use Rattle.aes_counter.specs.Keystream.{keystream_of};
ghost use Rattle.stretches.specs.Stretch.{keystream_end};
ghost use Rattle.aes_cm.specs.Portion.{portion_pad};

use aes::blocks::{Blocks, Cipher, round_keys};
use aes_counter::start::packet_start;
use aes_keystream::keystream::xor_stretch;
use aes_keystream::seek::seek;
use aes_tables::tables::Tables;
use bits::portion::Portion;

// The two sides of a portion are neighbouring stretches, of the keystream from any byte `from` on: AES in counter mode starts at its first byte, GCM's text at byte
// 32, where the counter is 2, and what hides GCM's hash at byte 16. A block that both sides share is carried along, and so made once. The buffer ends before the
// keystream does, so neither is LARGE.
pub fn xor_from(blocks: &Blocks<'_>, from: usize, buf: &mut [u8], portion: Portion)
    requires rest_le_length { (portion.rest ≤ length buf.old) × (from + length buf.old ≤ keystream_end) }
    ensures { buf.new ≡ xor_pad (portion_pad portion.first portion.stop portion.rest (λ k. byte_from blocks.now.cipher.key blocks.now.block (from + k))) buf.old }
{
    let Portion { first, stop, rest } = portion;
    let s = seek(blocks, from);
    if first == stop {
        xor_stretch(blocks, &mut buf[rest..], s);
        return;
    }
    let t = xor_stretch(blocks, &mut buf[first..stop], s);
    xor_stretch(blocks, &mut buf[rest..], t);
}

// The keystream of a packet from its first byte on, by key, salt, SSRC and index. The tables are lent: they are written to the stack anew wherever they are made,
// and under the mask a packet has two keystreams.
pub fn xor_portion(
    tables: Tables<'_>,
    key: [u8; 16],
    salt: [u8; 14],
    ssrc: u32,
    index: u64,
    buf: &mut [u8],
    portion: Portion,
)
    requires rest_le_length { (portion.rest ≤ length buf.old) × (length buf.old ≤ keystream_end) }
    ensures { buf.new ≡ xor_pad (portion_pad portion.first portion.stop portion.rest (keystream_of key salt ssrc index)) buf.old }
{
    prove!(portion.stop <= portion.rest);
    let keys = round_keys(tables.sbox, key);
    let cipher = Cipher {
        tables,
        keys: &keys,
        key,
    };
    let blocks = packet_start(cipher, salt, ssrc, index);
    xor_from(&blocks, 0, buf, portion);
}
