// XORing a block of keystream onto a part of a buffer.
ghost use Rattle.std.specs.Prelude.{◌≡◌, ◌+◌, ◌≤◌, length, get_or};
ghost use Rattle.bits.specs.Xor.{xor_pad};

use bits::big_endian::{read32, write32};

// The bytes of a block, from byte `from` on, onto a part, one by one.
pub fn xor_bytes(part: &mut [u8], block: [u8; 16], from: usize)
    requires { from + length part.old ≤ 16 }
    ensures { part.new ≡ xor_pad (λ k. get_or block (from + k) 0) part.old }
{
    for k in 0..part.len() {
        part[k] ^= block[from + k];
    }
}

// The same for a part of four bytes, as one number.
fn xor_word(part: &mut [u8], block: [u8; 16], from: usize)
    requires { (length part.old ≡ 4) × (from + 4 ≤ 16) }
    ensures { part.new ≡ xor_pad (λ k. get_or block (from + k) 0) part.old }
{
    // `array` would ask whether a word overlaps with what it is copied to: 6 % of the instructions of 200 bytes.
    let word = [
        block[from],
        block[from + 1],
        block[from + 2],
        block[from + 3],
    ];
    let sum = read32([part[0], part[1], part[2], part[3]]) ^ read32(word);
    part.copy_from_slice(&write32(sum));
}

// A whole block onto a part of sixteen bytes, a column at a time: one by one, the compiler would take the bytes out of their columns and put them
// together again.
fn xor_block(part: &mut [u8], block: [u8; 16])
    requires { length part.old ≡ 16 }
    ensures { part.new ≡ xor_pad (λ k. get_or block k 0) part.old }
{
    xor_word(&mut part[0..4], block, 0);
    xor_word(&mut part[4..8], block, 4);
    xor_word(&mut part[8..12], block, 8);
    xor_word(&mut part[12..16], block, 12);
}

// A block, from its first byte on, onto a part.
pub fn xor_part(part: &mut [u8], block: [u8; 16])
    requires { length part.old ≤ 16 }
    ensures { part.new ≡ xor_pad (λ k. get_or block (0 + k) 0) part.old }
{
    if part.len() == 16 {
        xor_block(part, block);
    } else {
        xor_bytes(part, block, 0);
    }
}
