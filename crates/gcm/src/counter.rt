// The counter blocks of an IV, started (SP 800-38D, 7.1, step 2).
ghost use Rattle.std.specs.Prelude.{◌≡◌};
ghost use Rattle.gcm.specs.Steps.{base_of};

use aes::blocks::{Blocks, Cipher, start_at};

// Where the keystream of the block that hides the hash begins, whose counter is 1 (J_0), and that of the text, whose counter is 2 at first.
pub const HASH: usize = 16;

pub const TEXT: usize = 32;

// What the blocks of a packet are made from. The counter is 0 here; its last two bytes are the number of a block, and the two before stay 0.
pub fn start<'a>(cipher: Cipher<'a>, iv: [u8; 12]) -> Blocks<'a>
    ensures { (result.cipher.key ≡ cipher.entry.key) × (result.block ≡ base_of iv) }
{
    let block = [
        iv[0], iv[1], iv[2], iv[3], iv[4], iv[5], iv[6], iv[7], iv[8], iv[9], iv[10], iv[11], 0, 0,
        0, 0,
    ];
    start_at(cipher, block)
}
