// A round, and the last round (FIPS 197, 5.1).
ghost use Rattle.std.specs.Prelude.{◌≡◌};
ghost use Rattle.aes_tables.specs.Cipher.{round_of, last_round_of};

use aes_columns::column::{add_round_key, round_column};
use aes_keys::word;
use aes_tables::tables::{RoundEntries, SboxEntries};

pub fn round(table: RoundEntries<'_>, s: [[u8; 4]; 4], k: [[u8; 4]; 4]) -> [[u8; 4]; 4]
    ensures { result ≡ round_of s k }
{
    let [a, b, c, d] = s;
    [
        round_column(table, a[0], b[1], c[2], d[3], k[0]),
        round_column(table, b[0], c[1], d[2], a[3], k[1]),
        round_column(table, c[0], d[1], a[2], b[3], k[2]),
        round_column(table, d[0], a[1], b[2], c[3], k[3]),
    ]
}

// The last round mixes no columns.
pub fn last_round(sbox: SboxEntries<'_>, s: [[u8; 4]; 4], k: [[u8; 4]; 4]) -> [[u8; 4]; 4]
    ensures { result ≡ last_round_of s k }
{
    let [a, b, c, d] = s;
    let shifted = [
        word::substitute(sbox, [a[0], b[1], c[2], d[3]]),
        word::substitute(sbox, [b[0], c[1], d[2], a[3]]),
        word::substitute(sbox, [c[0], d[1], a[2], b[3]]),
        word::substitute(sbox, [d[0], a[1], b[2], c[3]]),
    ];
    add_round_key(shifted, k)
}
