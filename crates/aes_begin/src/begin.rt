// The first two rounds of blocks that differ in their last two bytes only, as those of counter mode do: what they have in common is made once, and each
// round adds what is missing.
ghost use Rattle.std.specs.Prelude.{◌≡◌, List, ℕ};
ghost use Rattle.aes_tables.specs.Cipher.{round_of};
ghost use Rattle.aes_begin.specs.Steps.{Begins};

use aes_columns::column::row;
use aes_keys::word;
use aes_shared::columns::{first_columns, second_columns, whole_columns};
use aes_tables::tables::RoundEntries;

// After the first round: columns 0 and 1, as numbers, without what the last two bytes bring, and columns 2 and 3, which these do not reach. After the
// second: columns 0 to 3, as numbers, without what columns 0 and 1 bring.
#[derive(Clone, Copy)]
pub struct Begun {
    pub first: [u32; 2],
    pub column2: [u8; 4],
    pub column3: [u8; 4],
    pub second: [u32; 4],
}

// What the states have in common that begin as s does, under the round keys k and l: its last two bytes do not matter.
pub fn begin(table: RoundEntries<'_>, s: [[u8; 4]; 4], k: [[u8; 4]; 4], l: [[u8; 4]; 4]) -> Begun
    ensures { Begins s k l result }
{
    let first = first_columns(table, s, k);
    let [column2, column3] = whole_columns(table, s, k);
    let second = second_columns(table, column2, column3, l);
    Begun {
        first,
        column2,
        column3,
        second,
    }
}

// The first round of a state that was begun.
pub fn first_round(table: RoundEntries<'_>, s: [[u8; 4]; 4], begun: Begun) -> [[u8; 4]; 4]
    ensures { (k l : List (List ℕ)) → Begins s k l begun → result ≡ round_of s k }
{
    let last = s[3];
    [
        word::unpack(begun.first[0] ^ row::<3>(table, last[3])),
        word::unpack(begun.first[1] ^ row::<2>(table, last[2])),
        begun.column2,
        begun.column3,
    ]
}

// The second round, of the state that the first has left.
pub fn second_round(table: RoundEntries<'_>, s: [[u8; 4]; 4], begun: Begun) -> [[u8; 4]; 4]
    ensures { (t k l : List (List ℕ)) → Begins t k l begun → s ≡ round_of t k → result ≡ round_of s l }
{
    let [p, q, _, _] = s;
    let second = begun.second;
    [
        word::unpack(row::<0>(table, p[0]) ^ row::<1>(table, q[1]) ^ second[0]),
        word::unpack(row::<0>(table, q[0]) ^ second[1] ^ row::<3>(table, p[3])),
        word::unpack(second[2] ^ row::<2>(table, p[2]) ^ row::<3>(table, q[3])),
        word::unpack(second[3] ^ row::<1>(table, p[1]) ^ row::<2>(table, q[2])),
    ]
}
