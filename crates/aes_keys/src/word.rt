// Words of four bytes (FIPS 197, 3.5).
ghost use Rattle.std.specs.Prelude.{◌≡◌};
ghost use Rattle.bits.specs.Xor.{xor_list};
ghost use Rattle.aes_tables.specs.Keys.{sub_word};
ghost use Rattle.aes_tables.specs.Tables.{unpack_of};

use aes_tables::tables::SboxEntries;

pub fn xor(a: [u8; 4], b: [u8; 4]) -> [u8; 4]
    ensures { result ≡ xor_list a b }
{
    [a[0] ^ b[0], a[1] ^ b[1], a[2] ^ b[2], a[3] ^ b[3]]
}

// Each byte through the S-box.
pub fn substitute(sbox: SboxEntries<'_>, a: [u8; 4]) -> [u8; 4]
    ensures { result ≡ sub_word a }
{
    a.map(|x| sbox.bytes[x as usize])
}

// The word as one number, its first byte the lowest, which is how the round table has its entries.
pub fn pack(a: [u8; 4]) -> u32
    ensures { unpack_of result ≡ a }
{
    u32::from_le_bytes(a)
}

pub fn unpack(w: u32) -> [u8; 4]
    ensures { result ≡ unpack_of w }
{
    w.to_le_bytes()
}
