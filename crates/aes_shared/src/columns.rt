// The columns of the first two rounds, as far as blocks have them in common that differ in their last two bytes only (FIPS 197, 5.1).
ghost use Rattle.std.specs.Prelude.{◌≡◌, [], ◌∷◌, get_or};
ghost use Rattle.aes_tables.specs.Cipher.{round_of};
ghost use Rattle.aes_shared.specs.Shared.{FirstColumns, SecondColumns};

use aes_columns::column::{round_column, row};
use aes_keys::word;
use aes_tables::tables::RoundEntries;

// Columns 0 and 1 after the first round.
pub fn first_columns(table: RoundEntries<'_>, s: [[u8; 4]; 4], k: [[u8; 4]; 4]) -> [u32; 2]
    ensures { FirstColumns s k result }
{
    let [a, b, c, _] = s;
    let p = row::<0>(table, a[0])
        ^ row::<1>(table, b[1])
        ^ row::<2>(table, c[2])
        ^ word::pack(k[0]);
    let q = row::<0>(table, b[0])
        ^ row::<1>(table, c[1])
        ^ row::<3>(table, a[3])
        ^ word::pack(k[1]);
    [p, q]
}

// Columns 2 and 3 after the first round, which the last two bytes do not reach.
pub fn whole_columns(table: RoundEntries<'_>, s: [[u8; 4]; 4], k: [[u8; 4]; 4]) -> [[u8; 4]; 2]
    ensures { result ≡ get_or (round_of s k) 2 [] ∷ get_or (round_of s k) 3 [] ∷ [] }
{
    let [a, b, c, d] = s;
    [
        round_column(table, c[0], d[1], a[2], b[3], k[2]),
        round_column(table, d[0], a[1], b[2], c[3], k[3]),
    ]
}

// The columns after the second round, from columns 2 and 3 before it.
pub fn second_columns(table: RoundEntries<'_>, u: [u8; 4], v: [u8; 4], k: [[u8; 4]; 4]) -> [u32; 4]
    ensures { SecondColumns u v k result }
{
    let e = row::<2>(table, u[2]) ^ row::<3>(table, v[3]) ^ word::pack(k[0]);
    let f = row::<1>(table, u[1]) ^ row::<2>(table, v[2]) ^ word::pack(k[1]);
    let g = row::<0>(table, u[0]) ^ row::<1>(table, v[1]) ^ word::pack(k[2]);
    let h = row::<0>(table, v[0]) ^ row::<3>(table, u[3]) ^ word::pack(k[3]);
    [e, f, g, h]
}
