// Encrypting and decrypting chosen elements of a header extension in place.
ghost use Rattle.std.specs.Prelude.{◌≡◌, true, ◌≤◌, length};
ghost use Rattle.bits.specs.Xor.{xor_pad};
ghost use Rattle.stretches.specs.Stretch.{keystream_end, stretch_pad};
ghost use Rattle.aes.specs.Blocks.{byte_from};
ghost use Rattle.aes_counter.specs.Keystream.{keystream_of};
ghost use Rattle.aes_keystream.specs.Steps.{Holds};
ghost use Rattle.rtp_elements.specs.Elements.{whole_of};
ghost use Rattle.rtp_elements.specs.Mask.{listed_in, masked_of};

use crate::listed::is_listed;
use aes::blocks::{Blocks, Cipher, round_keys};
use aes_counter::start::packet_start;
use aes_keystream::keystream::{Keystream, xor_held, xor_stretch};
use aes_keystream::seek::skip;
use aes_tables::tables::Tables;
use rtp_elements::element::next;

// The data of one element: byte k of the block with byte k of the keystream, k from `begin` up to `end`, a stretch that starts there. Most elements lie in the
// cipher's block that is held.
fn crypt_element(
    blocks: &Blocks<'_>,
    block: &mut [u8],
    begin: usize,
    end: usize,
    s: Keystream,
) -> Keystream
    requires at_le_begin { (s.at ≤ begin) × ((begin ≤ end) × ((end ≤ length block.old) × (length block.old ≤ keystream_end))) }
    requires holds { Holds blocks.now.cipher.key blocks.now.block s }
    ensures at_value { (result.at ≡ end) × Holds blocks.now.cipher.key blocks.now.block result }
    ensures block_after { block.new ≡ xor_pad (stretch_pad begin end begin (byte_from blocks.now.cipher.key blocks.now.block)) block.old }
{
    let t = skip(blocks, s, begin);
    let u = xor_held(&mut block[begin..end], t);
    let a = u.at;
    if a < end {
        return xor_stretch(blocks, &mut block[a..end], u);
    }
    u
}

// The data of listed elements, byte k of the block with byte k of the keystream; the rest of the block stays. By places and no
// iterator: the block is written between two steps.
fn crypt_by(blocks: &Blocks<'_>, block: &mut [u8], tag: u16, listed: &[u64; 4])
    requires block_value { (whole_of tag block.old ≡ true) × (length block.old ≤ keystream_end) }
    ensures { block.new ≡ masked_of (listed_in listed.now) tag (byte_from blocks.now.cipher.key blocks.now.block) block.old }
{
    let mut s = Keystream {
        block: [0u8; 16],
        at: 0,
    };
    let mut i: usize = 0;
    while let Some(element) = next(block, tag, i).unwrap() {
        let begin = element.begin;
        let end = begin + element.length;
        if is_listed(listed, element.id) {
            let t = crypt_element(blocks, block, begin, end, s);
            s = t;
        }
        i = end;
    }
}

// The same by key, salt, SSRC and index, with tables that the caller lends.
pub fn crypt_elements(
    tables: Tables<'_>,
    key: [u8; 16],
    salt: [u8; 14],
    ssrc: u32,
    index: u64,
    block: &mut [u8],
    tag: u16,
    listed: &[u64; 4],
)
    requires block_value { (whole_of tag block.old ≡ true) × (length block.old ≤ keystream_end) }
    ensures { block.new ≡ masked_of (listed_in listed.now) tag (keystream_of key salt ssrc index) block.old }
{
    let keys = round_keys(tables.sbox, key);
    let cipher = Cipher {
        tables,
        keys: &keys,
        key,
    };
    let blocks = packet_start(cipher, salt, ssrc, index);
    crypt_by(&blocks, block, tag, listed);
}
