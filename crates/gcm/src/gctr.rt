// GCTR onto a portion of a buffer in place (SP 800-38D, 6.5).
ghost use Rattle.std.specs.Prelude.{◌≡◌, ◌+◌, ◌≤◌, length};
ghost use Rattle.bits.specs.Xor.{xor_pad};
ghost use Rattle.aes.specs.Blocks.{byte_from};
ghost use Rattle.aes_cm.specs.Portion.{portion_pad};
ghost use Rattle.stretches.specs.Stretch.{keystream_end};
ghost use Rattle.gcm.specs.Steps.{base_of, sealed_of};

use crate::counter::{TEXT, start};
use aes::blocks::{Cipher, round_keys};
use aes_cm::portion::xor_from;
use aes_tables::tables::{self, RoundEntries, SboxEntries, Tables};
use bits::portion::Portion;

// The keystream of the counter blocks, from any byte `from` of it on. The cipher's tables lie in this function's own frame, and are gone when it returns.
pub fn crypt_from(key: [u8; 16], iv: [u8; 12], from: usize, buf: &mut [u8], portion: Portion)
    requires { (portion.rest ≤ length buf.old) × (from + length buf.old ≤ keystream_end) }
    ensures { buf.new ≡ xor_pad (portion_pad portion.first portion.stop portion.rest (λ k. byte_from key (base_of iv) (from + k))) buf.old }
{
    let sbox = tables::sbox();
    let round = tables::round_table();
    let tables = Tables {
        sbox: SboxEntries { bytes: &sbox },
        round: RoundEntries { bytes: &round },
    };
    let keys = round_keys(tables.sbox, key);
    let cipher = Cipher {
        tables,
        keys: &keys,
        key,
    };
    let blocks = start(cipher, iv);
    xor_from(&blocks, from, buf, portion);
}

// The text of the portion encrypted or decrypted: from the counter 2 on.
pub fn crypt(key: [u8; 16], iv: [u8; 12], buf: &mut [u8], portion: Portion)
    requires { (portion.rest ≤ length buf.old) × (32 + length buf.old ≤ keystream_end) }
    ensures { buf.new ≡ sealed_of key iv portion.first portion.stop portion.rest buf.old }
{
    prove!(portion.stop <= portion.rest);
    crypt_from(key, iv, TEXT, buf, portion);
}
