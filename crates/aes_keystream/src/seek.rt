// The keystream moved on to any byte. "Block" here is a block of the cipher, sixteen bytes of keystream.
ghost use Rattle.std.specs.Prelude.{◌≡◌, List, ℕ, ◌≤◌};
ghost use Rattle.stretches.specs.Stretch.{keystream_end};
ghost use Rattle.aes_keystream.specs.Steps.{Holds};

use crate::keystream::{Keystream, span, xor_stretch};
use aes::blocks::Blocks;

// Moves on within the block that is held, up to its end or to byte `to`.
fn pass_held(s: Keystream, to: usize) -> Keystream
    requires { s.at ≤ to }
    ensures at_le_at { (s.at ≤ result.at) × (result.at ≤ to) }
    ensures by_index { (key start : List ℕ) → Holds key start s → Holds key start result }
{
    let at = s.at;
    let from = at % 16;
    if from == 0 {
        return s;
    }
    let n = span(from, to - at);
    let block = s.block;
    Keystream { block, at: at + n }
}

// Moves on to byte `to`. Blocks between are made in their turn, by the one function that makes blocks, onto bytes that nobody reads.
pub fn skip(blocks: &Blocks<'_>, s: Keystream, to: usize) -> Keystream
    requires at_le_to { (s.at ≤ to) × (to ≤ keystream_end) }
    requires holds { Holds blocks.now.cipher.key blocks.now.block s }
    ensures { (result.at ≡ to) × Holds blocks.now.cipher.key blocks.now.block result }
{
    let mut unread = [0u8; 16];
    let mut t = pass_held(s, to);
    // No count goes up here: each stretch ends where its block does, or at `to`.
    while t.at < to {
        let n = span(0, to - t.at);
        t = xor_stretch(blocks, &mut unread[..n], t);
    }
    t
}

// Starts at byte `to`. No block is made but the one that `to` stands inside, if it stands inside one.
pub fn seek(blocks: &Blocks<'_>, to: usize) -> Keystream
    requires to_le_keystream_end { to ≤ keystream_end }
    ensures { (result.at ≡ to) × Holds blocks.now.cipher.key blocks.now.block result }
{
    let s = Keystream {
        block: [0u8; 16],
        at: to - to % 16,
    };
    skip(blocks, s, to)
}
