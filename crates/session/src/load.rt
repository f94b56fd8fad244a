// What is read of a session's memory before its records: whether it was made, the suite, the policy, the session keys and the ids.
ghost use Rattle.std.specs.Prelude.{◌≡◌, ◌+◌, ◌%◌, ◌^◌, ◌≤◌};
ghost use Rattle.memory.specs.Parts.{part_at};
ghost use Rattle.memory.specs.Words.{word, bytes_in, five};
ghost use Rattle.session.specs.Making.{policy_of};
ghost use Rattle.session.specs.Memory.{is_mark, suite_at, policy_at, size, setup_at};

use crate::layout::{
    CIPHER, HASH, HEADER_CIPHER, HEADER_SALT, IDS, INNER, MARK, OUTER, SALT, SIZE,
};
use hmac::key::KeyStates;
use memory::words::bytes;
use packet_cipher::keys::Keys;
use policies::policy::Policy;
use std::array::from_fn;
use suites::suite::Suite;

// A made session has this first word.
pub fn is_made(first: u64) -> bool
    ensures { result ≡ is_mark first }
{
    (MARK..=MARK + 7).contains(&first)
}

// Two bits of the first word, so the last is any other number.
fn policy_of(policy: u64) -> Policy
    ensures { result ≡ policy_of policy }
{
    match policy {
        0 => Policy::Plain,
        1 => Policy::Cryptex,
        2 => Policy::CryptexRequired,
        _ => Policy::Mask,
    }
}

// The policy; that of the unmade session where memory holds no made one.
pub fn load_policy(first: u64) -> Policy
    ensures { result ≡ policy_at first }
{
    if is_made(first) {
        policy_of((first - MARK) % 4)
    } else {
        Policy::Plain
    }
}

// The suite; that of the unmade session where memory holds no made one.
pub fn load_suite(first: u64) -> Suite
    ensures { result ≡ suite_at first }
{
    if is_made(first) {
        Suite::from((first - MARK) / 4)
    } else {
        Suite::CmHmac
    }
}

// The 32-bit number in a word.
pub fn low(word: u64) -> u32
    ensures { result ≡ word % 2 ^ 32 }
{
    (word % (1 << 32)) as u32
}

// The bytes in two words.
fn bytes_at<const N: usize>(session: &[u64; SIZE], i: usize) -> [u8; N]
    requires words { i + 2 ≤ size }
    requires bytes { (8 ≤ N) × (N ≤ 16) }
    ensures { result ≡ bytes_in N (word session.now i) (word session.now (i + 1)) }
{
    bytes(session[i], session[i + 1])
}

// Five 32-bit numbers, one to a word.
fn five_at(session: &[u64; SIZE], i: usize) -> [u32; 5]
    requires { i + 5 ≤ size }
    ensures { result ≡ five (part_at i 5 session.now) }
{
    from_fn(|k| low(session[i + k]))
}

// The session keys.
pub fn keys_of(session: &[u64; SIZE]) -> Keys
    ensures { result ≡ (setup_at session.now).keys }
{
    Keys {
        cipher: bytes_at(session, CIPHER),
        salt: bytes_at(session, SALT),
        header_cipher: bytes_at(session, HEADER_CIPHER),
        header_salt: bytes_at(session, HEADER_SALT),
        auth: KeyStates {
            inner: five_at(session, INNER),
            outer: five_at(session, OUTER),
        },
        hash: bytes_at(session, HASH),
    }
}

// The set of ids: its four words.
pub fn ids_of(session: &[u64; SIZE]) -> [u64; 4]
    ensures { result ≡ (setup_at session.now).ids }
{
    let mut ids = [0u64; 4];
    ids.copy_from_slice(&session[IDS..CIPHER]);
    ids
}
