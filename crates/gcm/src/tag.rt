// The tag (SP 800-38D, 7.1, steps 4 to 6): of associated data and a cipher text, wherever they lie, and of a buffer as it is sent. Nothing is written to either.
ghost use Rattle.std.specs.Prelude.{◌≡◌, ◌+◌, ◌^◌, ◌≤◌, ◌<◌, length};
ghost use Rattle.stretches.specs.Stretch.{keystream_end};
ghost use Rattle.gcm_hash.specs.Portion.{outside_of, inside_of};
ghost use Rattle.gcm.specs.Gctr.{gctr_of};
ghost use Rattle.gcm.specs.Gcm.{j0_of, tag_by};

use crate::counter::HASH;
use crate::gctr::crypt_from;
use bits::portion::Portion;
use gcm_hash::hash::{hash, hash_parts};

// The hash S, hidden by the block of J_0, which is block number 1.
fn hidden(key: [u8; 16], iv: [u8; 12], hash: [u8; 16]) -> [u8; 16]
    ensures { result ≡ gctr_of key (j0_of iv) hash }
{
    let mut s = hash;
    let all = Portion {
        first: 0,
        stop: 0,
        rest: 0,
    };
    crypt_from(key, iv, HASH, &mut s, all);
    s
}

// The tag of the associated data a and the cipher text c.
pub fn tag_parts(key: [u8; 16], subkey: [u8; 16], iv: [u8; 12], a: &[u8], c: &[u8]) -> [u8; 16]
    requires { (length a.now < 2 ^ 59) × (length c.now < 2 ^ 59) }
    ensures { result ≡ tag_by key subkey iv a.now c.now }
{
    hidden(key, iv, hash_parts(subkey, a, &a[0..0], c, &c[0..0]))
}

// The tag of a buffer by its encrypted portion.
pub fn tag(key: [u8; 16], subkey: [u8; 16], iv: [u8; 12], buf: &[u8], portion: Portion) -> [u8; 16]
    requires { (portion.rest ≤ length buf.now) × (32 + length buf.now ≤ keystream_end) }
    ensures { result ≡ tag_by key subkey iv (outside_of portion.first portion.stop portion.rest buf.now) (inside_of portion.first portion.stop portion.rest buf.now) }
{
    hidden(key, iv, hash(subkey, buf, portion))
}
