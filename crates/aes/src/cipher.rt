// The cipher on one block (FIPS 197, 5.1).
ghost use Rattle.std.specs.Prelude.{◌≡◌, [], get_or};
ghost use Rattle.aes_tables.specs.Cipher.{add_round_key, cipher_of};
ghost use Rattle.aes_tables.specs.Keys.{aes128_of};
ghost use Rattle.aes_begin.specs.Steps.{Begins};

use aes_begin::begin::{Begun, begin, first_round, second_round};
use aes_columns::column::add_round_key;
use aes_keys::key_schedule;
use aes_rounds::round::{last_round, round};
use aes_tables::tables::{self, RoundEntries, SboxEntries, Tables};

// The cipher on a block that was begun. The rounds stand in a line: a loop over the round keys costs a quarter more.
pub fn encrypt(
    tables: Tables<'_>,
    keys: &[[[u8; 4]; 4]; 11],
    begun: Begun,
    block: [[u8; 4]; 4],
) -> [[u8; 4]; 4]
    requires { Begins (add_round_key block (get_or keys.now 0 [])) (get_or keys.now 1 []) (get_or keys.now 2 []) begun }
    ensures { result ≡ cipher_of block keys.now }
{
    let s0 = add_round_key(block, keys[0]);
    let s1 = first_round(tables.round, s0, begun);
    let s2 = second_round(tables.round, s1, begun);
    let s3 = round(tables.round, s2, keys[3]);
    let s4 = round(tables.round, s3, keys[4]);
    let s5 = round(tables.round, s4, keys[5]);
    let s6 = round(tables.round, s5, keys[6]);
    let s7 = round(tables.round, s6, keys[7]);
    let s8 = round(tables.round, s7, keys[8]);
    let s9 = round(tables.round, s8, keys[9]);
    last_round(tables.sbox, s9, keys[10])
}

// AES-128 on one block alone. Whoever has several blocks makes the tables, the round keys and what the blocks have in common once.
pub fn aes128(key: [[u8; 4]; 4], block: [[u8; 4]; 4]) -> [[u8; 4]; 4]
    ensures { result ≡ aes128_of key block }
{
    let sbox = tables::sbox();
    let round = tables::round_table();
    let tables = Tables {
        sbox: SboxEntries { bytes: &sbox },
        round: RoundEntries { bytes: &round },
    };
    let keys = key_schedule::expand(tables.sbox, key);
    let begun = begin(
        tables.round,
        add_round_key(block, keys[0]),
        keys[1],
        keys[2],
    );
    encrypt(tables, &keys, begun, block)
}
