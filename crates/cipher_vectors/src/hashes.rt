// SHA-1 and HMAC-SHA1.
use hmac::mac::hmac;
use lines::hex::Hex;
use sha1_digest::digest::{digest, sha1, start};
use sha1_message::message::{blocks, finish};
use std::io;

// No key and no message is longer.
const MOST: usize = 4096;

pub fn hash(rt: &impl Print, message: &[u8]) -> io::Result<()> {
    if message.len() >= MOST {
        return Ok(());
    }
    println!(rt; "{}", Hex(&sha1(message)))
}

// The hash value after one million times the letter a, as 625 times 25 whole blocks.
fn million() -> [u32; 5] {
    let letters = [b'a'; 1600];
    (0..625).fold(start(), |hash, _| blocks(hash, &letters, 25))
}

pub fn repeated(rt: &impl Print) -> io::Result<()> {
    println!(rt; "{}", Hex(&digest(finish(million(), 1000000, b"", b""))))
}

// The last four bytes of the message come as its second part, as a packet's rollover counter does.
pub fn code(rt: &impl Print, key: &[u8], message: &[u8]) -> io::Result<()> {
    if message.len() > MOST || key.len() > MOST {
        return Ok(());
    }
    match message.split_last_chunk::<4>() {
        Some((front, back)) => println!(rt; "{}", Hex(&hmac(key, front, back))),
        None => Ok(()),
    }
}
