// A column of a round, by the round table: what a byte brings to it in SubBytes and MixColumns (FIPS 197, 5.1.1 and 5.1.3), by the row that the byte
// stands in. The matrix of MixColumns is cyclic: from another byte of the same entry on, the multiples are those of another row.
ghost use Rattle.std.specs.Prelude.{◌≡◌, ◌<◌};
ghost use Rattle.bits.specs.Xor.{xor_list};
ghost use Rattle.aes_tables.specs.Cipher.{sbox_of, mix_column, add_round_key};
ghost use Rattle.aes_tables.specs.Tables.{unpack_of, row_of};

use aes_keys::word;
use aes_tables::tables::RoundEntries;

// What x brings in row R. Its four bytes stand in its entry from byte 0, 3, 2 or 1 on.
pub fn row<const R: usize>(table: RoundEntries<'_>, x: u8) -> u32
    requires { R < 4 }
    ensures { unpack_of result ≡ row_of R (sbox_of x) }
{
    let at = 8 * (x as usize) + (4 - R) % 4;
    word::pack([
        table.bytes[at],
        table.bytes[at + 1],
        table.bytes[at + 2],
        table.bytes[at + 3],
    ])
}

// The whole column: SubBytes, MixColumns and AddRoundKey, for the four bytes that ShiftRows brings together. The order of the sum
// is the fastest of those that were tried.
pub fn round_column(table: RoundEntries<'_>, a: u8, b: u8, c: u8, d: u8, k: [u8; 4]) -> [u8; 4]
    ensures { result ≡ xor_list (mix_column (sbox_of a) (sbox_of b) (sbox_of c) (sbox_of d)) k }
{
    word::unpack(
        row::<0>(table, a)
            ^ word::pack(k)
            ^ row::<3>(table, d)
            ^ row::<1>(table, b)
            ^ row::<2>(table, c),
    )
}

// AddRoundKey, a column at a time (5.1.4).
pub fn add_round_key(s: [[u8; 4]; 4], k: [[u8; 4]; 4]) -> [[u8; 4]; 4]
    ensures { result ≡ add_round_key s k }
{
    [
        word::xor(s[0], k[0]),
        word::xor(s[1], k[1]),
        word::xor(s[2], k[2]),
        word::xor(s[3], k[3]),
    ]
}
