// A header extension: under the mask for the ids 1, 3 and 4, and its elements.
ghost use Rattle.std.specs.Prelude.{◌≡◌, length};

use aes_cm::derivation::derive;
use aes_tables::tables::{self, RoundEntries, SboxEntries, Tables};
use element_cipher::elements::crypt_elements;
use keystream::stretch::stretch;
use lines::arrays::padded;
use lines::hex::Hex;
use rtp::find::find;
use rtp_elements::element::whole;
use std::io;

// Of the packet that has the extension; its rollover counter is 0.
const SSRC: u32 = 0xcafebabe;

const SEQUENCE: u64 = 0x1234;

// The tag of elements with a header of one byte (RFC 8285, 4.2).
const ONE_BYTE: u16 = 0xBEDE;

// The first 24 bytes of the header keystream under a master key and salt.
pub fn pad(rt: &impl Print, key: &[u8], salt: &[u8]) -> io::Result<()> {
    let keys = derive(padded(key), padded(salt));
    let mut pad = [0; 24];
    // 24 bytes from the first on are never too many.
    let _ = stretch(
        keys.header_cipher,
        keys.header_salt,
        SSRC,
        SEQUENCE,
        0,
        &mut pad,
    );
    println!(rt; "{}", Hex(&pad))
}

// The listed elements of the block under that keystream. After an error of printing, they are under it all the same.
pub fn masked(rt: &impl Print, key: &[u8], salt: &[u8], block: &mut [u8]) -> io::Result<()>
    ensures { length block.new ≡ length block.old }
{
    if block.len() != 24 || !whole(block, ONE_BYTE) {
        return Ok(());
    }
    let keys = derive(padded(key), padded(salt));
    let listed = [0b11010, 0, 0, 0];
    let sbox = tables::sbox();
    let round = tables::round_table();
    let tables = Tables {
        sbox: SboxEntries { bytes: &sbox },
        round: RoundEntries { bytes: &round },
    };
    crypt_elements(
        tables,
        keys.header_cipher,
        keys.header_salt,
        SSRC,
        SEQUENCE,
        block,
        ONE_BYTE,
        &listed,
    );
    println!(rt; "{}", Hex(block))
}

// An element of a packet, found in it: the part of the packet that is handed back, with the answer that `find` puts beside it.
pub fn element(rt: &impl Print, packet: &[u8], id: u64) -> io::Result<()> {
    let mut answer: u8 = 0;
    let part = find(packet, (id % 256) as u8, &mut answer);
    println!(rt; "answer {answer} data {}", Hex(part))
}
