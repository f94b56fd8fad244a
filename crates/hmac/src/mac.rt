// The message authentication code, over a message in two parts: a part of the caller's buffer, and some bytes more.
ghost use Rattle.std.specs.Prelude.{◌≡◌, ◌++◌, ◌≤◌, ◌<◌, ◌^◌, length};
ghost use Rattle.sha1_compress.specs.Message.{words_in, padding_of};
ghost use Rattle.sha1_compress.specs.Hash.{digest_of};
ghost use Rattle.hmac.specs.Hmac.{hmac_of};
ghost use Rattle.hmac.specs.Steps.{mac_of, KeyStatesGiveTheMac};

use crate::key::{KeyStates, key_states};
use sha1_compress::compress::compress;
use sha1_digest::digest::digest;
use sha1_message::message::finish;

// The last block of the outer hash: the inner hash value, padded after the key's block, is 84 bytes or 672 bits. (As words, written out: by way of `finish` the digest
// would be made as bytes and read as words again.)
fn last_block(h: [u32; 5]) -> [u32; 16]
    ensures { result ≡ words_in 16 (digest_of h ++ padding_of 84) }
{
    [
        h[0], h[1], h[2], h[3], h[4], 0x80000000, 0, 0, 0, 0, 0, 0, 0, 0, 0, 672,
    ]
}

// The code of `message` and then `tail` under a key whose states these are: the blocks of the message and one more. (The two parts are two parameters: a struct of them
// would be made for one call and taken apart in it.)
pub fn mac(states: KeyStates, message: &[u8], tail: &[u8]) -> [u8; 20]
    requires { (length tail.now ≤ 56) × (length message.now < 2 ^ 59) }
    ensures { result ≡ mac_of states (message.now ++ tail.now) }
{
    let h = finish(states.inner, 64, message, tail);
    let e = compress(states.outer, last_block(h));
    digest(e)
}

// HMAC-SHA1 of `message` and then `tail`.
pub fn hmac(key: &[u8], message: &[u8], tail: &[u8]) -> [u8; 20]
    requires { (length key.now < 2 ^ 60) × ((length tail.now ≤ 56) × (length message.now < 2 ^ 59)) }
    ensures { result ≡ hmac_of key.now (message.now ++ tail.now) }
{
    mac(key_states(key), message, tail)
}

pub fn key_states_give_the_mac()
    ensures { KeyStatesGiveTheMac }
{}
