// The hash values after the inner and the outer key block. They depend on the key alone, so they are made once for each key.
ghost use Rattle.std.specs.Prelude.{◌≡◌, ◌≤◌, ◌<◌, ◌^◌, length};
ghost use Rattle.bits.specs.Xor.{xor_pad};
ghost use Rattle.hmac.specs.Hmac.{filled_of};
ghost use Rattle.hmac.specs.Steps.{state_of, states_of, key_states_of};

use sha1_digest::digest::{sha1, start};
use sha1_message::message::blocks;

// What each byte of the inner and of the outer key block is XORed with.
const IPAD: u8 = 0x36;

const OPAD: u8 = 0x5c;

#[derive(Clone, Copy)]
pub struct KeyStates {
    pub inner: [u32; 5],
    pub outer: [u32; 5],
}

// The key, filled up with zeros, each byte XORed with x.
fn key_block(key: &[u8], x: u8) -> [u8; 64]
    requires { length key.now ≤ 64 }
    ensures { result ≡ xor_pad (λ i. x) (filled_of key.now) }
{
    let mut b = [x; 64];
    for (i, k) in key.iter().enumerate() {
        b[i] = *k ^ x;
    }
    b
}

fn key_state(key: &[u8], x: u8) -> [u32; 5]
    requires { length key.now ≤ 64 }
    ensures { result ≡ state_of x (filled_of key.now) }
{
    blocks(start(), &key_block(key, x), 1)
}

fn short_key_states(key: &[u8]) -> KeyStates
    requires { length key.now ≤ 64 }
    ensures { result ≡ states_of (filled_of key.now) }
{
    let inner = key_state(key, IPAD);
    let outer = key_state(key, OPAD);
    KeyStates { inner, outer }
}

// The states of a key. A key of more than 64 bytes is hashed first.
pub fn key_states(key: &[u8]) -> KeyStates
    requires { length key.now < 2 ^ 60 }
    ensures { result ≡ key_states_of key.now }
{
    if key.len() <= 64 {
        return short_key_states(key);
    }
    let d = sha1(key);
    short_key_states(&d)
}
