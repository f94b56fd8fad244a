// The words of a made session before its records, put together field after field.
ghost use Rattle.std.specs.Prelude.{◌≡◌, ◌+◌, ◌≤◌, length, replicate};
ghost use Rattle.memory.specs.Parts.{with_part};
ghost use Rattle.memory.specs.Words.{Numbers5};
ghost use Rattle.session.specs.Memory.{front, size};
ghost use Rattle.setup_words.specs.Steps.{setup_with, Stored};

use memory::words::halves;
use packet_cipher::keys::Keys;
use session::layout::{
    CIPHER, FRONT, HASH, HEADER_CIPHER, HEADER_SALT, IDS, INNER, MARK, MASTER_KEY, MASTER_SALT,
    OUTER, SALT,
};
use suites::suite::Suite;

// A state of HMAC, a number to a word.
fn wide(state: [u32; 5]) -> [u64; 5]
    ensures value { result ≡ state }
    ensures numbers5 { Numbers5 state }
{
    state.map(u64::from)
}

// A field from a place on.
fn put(words: &mut [u64; FRONT], at: usize, field: &[u64])
    requires { at + length field.now ≤ front }
    ensures { words.new ≡ with_part at field.now words.old }
{
    words[at..at + field.len()].copy_from_slice(field);
}

// Before zeros, so that no place holds a record, they are the session's memory. (The policy by its number, which goes into the first word.)
pub fn front_words(
    suite: Suite,
    policy: u64,
    key: [u8; 16],
    salt: [u8; 14],
    ids: [u64; 4],
    keys: Keys,
) -> [u64; FRONT]
    requires { policy ≤ 3 }
    ensures { Stored (setup_with suite policy key salt ids keys) (with_part 0 result (replicate size 0)) }
{
    let mut words = [0u64; FRONT];
    words[0] = MARK + (policy + 4 * u64::from(suite));
    put(&mut words, MASTER_KEY, &halves(&key));
    put(&mut words, MASTER_SALT, &halves(&salt));
    put(&mut words, IDS, &ids);
    put(&mut words, CIPHER, &halves(&keys.cipher));
    put(&mut words, SALT, &halves(&keys.salt));
    put(&mut words, HEADER_CIPHER, &halves(&keys.header_cipher));
    put(&mut words, HEADER_SALT, &halves(&keys.header_salt));
    put(&mut words, INNER, &wide(keys.auth.inner));
    put(&mut words, OUTER, &wide(keys.auth.outer));
    put(&mut words, HASH, &halves(&keys.hash));
    words
}
