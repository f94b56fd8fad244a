// AES on one block, and in counter mode.
use aes::blocks::state;
use aes::cipher::aes128;
use aes_cm::derivation::{SessionKeys, derive};
use keystream::call::stretch_call;
use lines::arrays::padded;
use lines::hex::Hex;
use std::io;

pub fn block(rt: &impl Print, key: &[u8], block: &[u8]) -> io::Result<()> {
    let encrypted = aes128(state(padded(key)), state(padded(block)));
    println!(rt; "{}", Hex(encrypted.as_flattened()))
}

// Block j of the keystream of SSRC 0 and index 0, as a stretch.
pub fn keystream(rt: &impl Print, key: &[u8], salt: &[u8], j: u64) -> io::Result<()> {
    let mut block = [0; 16];
    stretch_call(key, salt, 0, 0, j % 65536 * 16, &mut block);
    println!(rt; "{}", Hex(&block))
}

// The three blocks from block j on, as two neighbouring stretches that meet inside a block.
pub fn neighbours(rt: &impl Print, key: &[u8], salt: &[u8], j: u64) -> io::Result<()> {
    let start = j % 65536 * 16;
    let mut front = [0; 21];
    let mut back = [0; 27];
    stretch_call(key, salt, 0, 0, start, &mut front);
    stretch_call(key, salt, 0, 0, start + 21, &mut back);
    println!(rt; "{}{}", Hex(&front), Hex(&back))
}

// The documents name what is derived by these numbers alone (RFC 3711, 4.3.2, and RFC 6904, 4.1), and so do the vectors' lines.
fn labelled(keys: &SessionKeys, label: u64) -> &[u8] {
    match label {
        0 => &keys.cipher,
        1 => &keys.auth,
        2 => &keys.salt,
        6 => &keys.header_cipher,
        _ => &keys.header_salt,
    }
}

// What is derived for a label from a master key and salt.
pub fn derived(rt: &impl Print, key: &[u8], salt: &[u8], label: u64) -> io::Result<()> {
    let keys = derive(padded(key), padded(salt));
    println!(rt; "{}", Hex(labelled(&keys, label)))
}
