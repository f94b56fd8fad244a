// The border of the cipher, which a cipher chip or a processor's own instructions would stand behind: a key and a starting block, and the blocks that they
// give. No caller looks behind it: that the round keys are the key's and that the blocks were begun are facts of the types.
ghost use Rattle.std.specs.Prelude.{◌≡◌};
ghost use Rattle.aes_tables.specs.Cipher.{state_of, bytes_of};
ghost use Rattle.aes_tables.specs.Keys.{round_keys_of};
ghost use Rattle.aes.specs.Blocks.{block_from, Started};

use crate::cipher::encrypt;
use aes_begin::begin::{Begun, begin};
use aes_columns::column::add_round_key;
use aes_keys::key_schedule::expand;
use aes_tables::tables::{SboxEntries, Tables};

// A key, with its round keys and the tables that the cipher reads. Both are lent: the tables are written to the stack anew wherever they are made, and no proof is
// made yet of a struct that holds the round keys itself, arrays of arrays of bytes.
#[derive(Clone, Copy)]
pub struct Cipher<'a> {
    pub tables: Tables<'a>,
    pub keys: &'a [[[u8; 4]; 4]; 11],
    pub key: [u8; 16],
    pub ghost expanded: { keys.now ≡ round_keys_of (state_of key) },
}

// A starting block under a key, with what the first two rounds of its blocks have in common.
#[derive(Clone, Copy)]
pub struct Blocks<'a> {
    pub cipher: Cipher<'a>,
    pub block: [u8; 16],
    pub begun: Begun,
    pub ghost started: { Started cipher.key block begun },
}

// Sixteen bytes as a state (FIPS 197, 3.4).
pub fn state(b: [u8; 16]) -> [[u8; 4]; 4]
    ensures { result ≡ state_of b }
{
    [
        [b[0], b[1], b[2], b[3]],
        [b[4], b[5], b[6], b[7]],
        [b[8], b[9], b[10], b[11]],
        [b[12], b[13], b[14], b[15]],
    ]
}

// The bytes of a state, in order.
fn bytes(s: [[u8; 4]; 4]) -> [u8; 16]
    ensures { result ≡ bytes_of s }
{
    [
        s[0][0], s[0][1], s[0][2], s[0][3], s[1][0], s[1][1], s[1][2], s[1][3], s[2][0], s[2][1],
        s[2][2], s[2][3], s[3][0], s[3][1], s[3][2], s[3][3],
    ]
}

// The round keys of a key, to be lent.
pub fn round_keys(sbox: SboxEntries<'_>, key: [u8; 16]) -> [[[u8; 4]; 4]; 11]
    ensures { result ≡ round_keys_of (state_of key) }
{
    expand(sbox, state(key))
}

// The blocks of a key from a starting block on, whose last two bytes do not matter.
pub fn start_at<'a>(cipher: Cipher<'a>, block: [u8; 16]) -> Blocks<'a>
    ensures { (result.cipher.key ≡ cipher.entry.key) × (result.block ≡ block) }
{
    let keys = cipher.keys;
    let s = add_round_key(state(block), keys[0]);
    let begun = begin(cipher.tables.round, s, keys[1], keys[2]);
    Blocks {
        cipher,
        block,
        begun,
    }
}

// Block number j: the starting block with j in its last two bytes, encrypted under the key. Every block of a keystream is made here.
pub fn block(blocks: &Blocks<'_>, j: usize) -> [u8; 16]
    ensures { result ≡ block_from blocks.now.cipher.key blocks.now.block j }
{
    let b = blocks.block;
    let numbered = [
        [b[0], b[1], b[2], b[3]],
        [b[4], b[5], b[6], b[7]],
        [b[8], b[9], b[10], b[11]],
        [b[12], b[13], (j / 256 % 256) as u8, (j % 256) as u8],
    ];
    let cipher = blocks.cipher;
    bytes(encrypt(cipher.tables, cipher.keys, blocks.begun, numbered))
}
