// What every keystream goes through, that of packets and of the keystream part alike: a stretch of it onto a buffer, a block at a time. The block is held, and handed on
// to the next stretch, so that a block which both share is made once.
ghost use Rattle.std.specs.Prelude.{◌≡◌, List, false, ℕ, ◌+◌, ◌-◌, ◌<◌, length};
ghost use Rattle.bits.specs.Xor.{xor_pad};
ghost use Rattle.aes.specs.Blocks.{byte_from};
ghost use Rattle.stretches.specs.Stretch.{is_large, stretch_by, stretch_pad};
ghost use Rattle.aes_keystream.specs.Steps.{span_of, Span, Holds, Used};

use aes::blocks::{Blocks, block};
use block_xor::part::{xor_bytes, xor_part};

// The next byte of the keystream is number `at`; `block` is the block it stands in, unless that is still to be made. Whose block it is, the blocks say that go with
// it, so it is a clause, `Holds`, and no fact of this type alone.
#[derive(Clone, Copy)]
pub struct Keystream {
    pub block: [u8; 16],
    pub at: usize,
}

// How many bytes the block at byte `from` still has for a stretch of `left` bytes.
pub fn span(from: usize, left: usize) -> usize
    requires { from < 16 }
    ensures value { result ≡ span_of from left }
    ensures span { Span from left result }
{
    left.min(16 - from)
}

// What is left of the block that is held goes onto the first bytes of the buffer.
pub fn xor_held(buf: &mut [u8], s: Keystream) -> Keystream
    requires { is_large s.at (length buf.old) ≡ false }
    ensures used { Used (length buf.old) s result }
    ensures by_index { (key start : List ℕ) → Holds key start s → (Holds key start result) × (buf.new ≡ xor_pad (stretch_pad 0 (result.at - s.at) s.at (byte_from key start)) buf.old) }
{
    let at = s.at;
    let from = at % 16;
    if from == 0 {
        return s;
    }
    let n = span(from, buf.len());
    let block = s.block;
    xor_bytes(&mut buf[..n], block, from);
    Keystream { block, at: at + n }
}

// The keystream onto the whole buffer, from where it stands: first the block that is held, then one block after the other. Who calls it shows that the stretch is
// not LARGE; the keystream part tests it before.
pub fn xor_stretch(blocks: &Blocks<'_>, buf: &mut [u8], s: Keystream) -> Keystream
    requires buf_value { is_large s.at (length buf.old) ≡ false }
    requires holds { Holds blocks.now.cipher.key blocks.now.block s }
    ensures at_value { (result.at ≡ s.at + length buf.old) × Holds blocks.now.cipher.key blocks.now.block result }
    ensures buf_after { buf.new ≡ (stretch_by (byte_from blocks.now.cipher.key blocks.now.block) s.at buf.old).bytes }
{
    let e = buf.len();
    let mut t = xor_held(buf, s);
    let mut i = t.at - s.at;
    // `chunks_mut` would do without the count, but no proof knows a buffer's bytes after its chunks were written.
    while i < e {
        let at = t.at;
        let block = block(blocks, at / 16);
        let n = span(0, e - i);
        let end = i + n;
        xor_part(&mut buf[i..end], block);
        t = Keystream { block, at: at + n };
        i = end;
    }
    t
}
