// The key schedule, a round key at a time (FIPS 197, 5.2).
ghost use Rattle.std.specs.Prelude.{◌≡◌};
ghost use Rattle.aes_tables.specs.Keys.{round_keys_of};
ghost use Rattle.aes_keys.specs.NextKey.{next_key_of};

use crate::word;
use aes_tables::tables::SboxEntries;

// The round key after k; x is the first byte of its round constant.
fn next_key(sbox: SboxEntries<'_>, k: [[u8; 4]; 4], x: u8) -> [[u8; 4]; 4]
    ensures { result ≡ next_key_of k x }
{
    let last = k[3];
    let turned = [last[1], last[2], last[3], last[0]];
    let temp = word::xor(word::substitute(sbox, turned), [x, 0, 0, 0]);
    let a = word::xor(k[0], temp);
    let b = word::xor(k[1], a);
    let c = word::xor(k[2], b);
    let d = word::xor(last, c);
    [a, b, c, d]
}

// The eleven round keys of a key. The numbers are the powers of x in the field. (In a line: a loop would take them from an array and put each key into its place of
// another, and be no shorter.)
pub fn expand(sbox: SboxEntries<'_>, key: [[u8; 4]; 4]) -> [[[u8; 4]; 4]; 11]
    ensures { result ≡ round_keys_of key }
{
    let k1 = next_key(sbox, key, 0x01);
    let k2 = next_key(sbox, k1, 0x02);
    let k3 = next_key(sbox, k2, 0x04);
    let k4 = next_key(sbox, k3, 0x08);
    let k5 = next_key(sbox, k4, 0x10);
    let k6 = next_key(sbox, k5, 0x20);
    let k7 = next_key(sbox, k6, 0x40);
    let k8 = next_key(sbox, k7, 0x80);
    let k9 = next_key(sbox, k8, 0x1b);
    let k10 = next_key(sbox, k9, 0x36);
    [key, k1, k2, k3, k4, k5, k6, k7, k8, k9, k10]
}
