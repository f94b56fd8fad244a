// The message's blocks and its padding (FIPS 180-4, 5.1.1 and 5.2.1).
ghost use Rattle.std.specs.Prelude.{◌≡◌, ◌++◌, ◌+◌, ◌-◌, ◌*◌, ◌%◌, ◌^◌, ◌≤◌, ◌<◌, length, drop, replicate};
ghost use Rattle.std.proofs.Math.Seq.{paste};
ghost use Rattle.sha1_compress.specs.Message.{word_at, words_in};
ghost use Rattle.sha1_compress.specs.Hash.{blocks_of};
ghost use Rattle.sha1_compress.specs.Steps.{closed_of, hash_from};

use bits::big_endian::{read32, write64};
use sha1_compress::compress::compress;

// The word at byte `at`.
fn word(b: &[u8], at: usize) -> u32
    requires { at + 4 ≤ length b.now }
    ensures { result ≡ word_at b.now at }
{
    read32([b[at], b[at + 1], b[at + 2], b[at + 3]])
}

// The sixteen words of the block at byte `at`.
fn block(b: &[u8], at: usize) -> [u32; 16]
    requires { at + 64 ≤ length b.now }
    ensures { result ≡ words_in 16 (drop at b.now) }
{
    let mut w = [0u32; 16];
    for (i, x) in w.iter_mut().enumerate() {
        *x = word(b, at + 4 * i);
    }
    w
}

// The hash value after the first n blocks of b. (By way of `u`, as in `compress`'s last steps.)
pub fn blocks(h: [u32; 5], b: &[u8], n: usize) -> [u32; 5]
    requires { 64 * n ≤ length b.now }
    ensures { result ≡ blocks_of n h b.now }
{
    let mut s = h;
    for i in 0..n {
        let u = compress(s, block(b, 64 * i));
        s = u;
    }
    s
}

// The bytes of s into the buffer at k.
fn put(buf: &mut [u8], k: usize, s: &[u8])
    requires { k + length s.now ≤ length buf.old }
    ensures { buf.new ≡ paste buf.old k s.now (length s.now) }
{
    buf[k..k + s.len()].copy_from_slice(s);
}

// Writes what is left of a message, in two parts, and its padding into 128 zeros, and tells how many blocks they are, one or two. The byte 0x80 and the
// length take nine bytes, so up to 119 fit.
fn close(end: &mut [u8; 128], left: &[u8], tail: &[u8], bits: u64) -> usize
    requires { (end.old ≡ replicate 128 0) × (length left.now + length tail.now < 120) }
    ensures count { 64 * result ≡ length (closed_of (left.now ++ tail.now) bits) }
    ensures bytes { end.new ≡ closed_of (left.now ++ tail.now) bits ++ replicate (128 - 64 * result) 0 }
{
    let m = left.len() + tail.len();
    put(end, 0, left);
    put(end, left.len(), tail);
    end[m] = 0x80;
    let fits = m < 56;
    let n = if fits { 1 } else { 2 };
    let number = write64(bits);
    put(end, 64 * n - 8, &number);
    n
}

// The hash value of a message of which k bytes, whole blocks, are in h already; the bytes of b and then of tail are the rest. Up to 63 bytes of b are left
// over for its end, and 56 of tail make 119. (Two parameters, as in `hmac::mac::mac`.) No message here comes near 2^60 bytes: a packet has at most 2,048.
pub fn finish(h: [u32; 5], k: usize, b: &[u8], tail: &[u8]) -> [u32; 5]
    requires { (k % 64 ≡ 0) × ((length tail.now ≤ 56) × (k + length b.now + length tail.now < 2 ^ 60)) }
    ensures { result ≡ hash_from k h (b.now ++ tail.now) }
{
    let n = b.len() / 64;
    let s = blocks(h, b, n);
    let bits = ((k + b.len() + tail.len()) * 8) as u64;
    let mut end = [0u8; 128];
    let e = close(&mut end, &b[64 * n..], tail, bits);
    blocks(s, &end, e)
}
