// The hash of associated data and cipher text, each in two parts that may lie anywhere; and of a buffer whose encrypted portion has a gap, whose parts they are.
// Any lists may be lent to `feed_two` and `hash_by`, so whose multiples they are is a premise of what is said.
ghost use Rattle.std.specs.Prelude.{◌≡◌, List, ◌++◌, ℕ, ◌^◌, ◌≤◌, ◌<◌, length};
ghost use Rattle.bits.specs.BigEndian.{from_bytes};
ghost use Rattle.ghash.specs.Ghash.{padded_of};
ghost use Rattle.gf128_product.specs.Steps.{KeyTable};
ghost use Rattle.ghash.specs.Steps.{Fed};
ghost use Rattle.gcm_hash.specs.Hash.{hash_of};
ghost use Rattle.gcm_hash.specs.Portion.{outside_of, inside_of};

use bits::portion::Portion;
use gf128::block::Block;
use gf128_product::table::key_table;
use ghash::hash::{feed, finish, pad, start};
use ghash::state::Hash;

// Two parts, and the zeros after them.
fn feed_two(table: &[[u64; 32]; 8], s: Hash, x: &[u8], y: &[u8]) -> Hash
    ensures { (h : ℕ) (l : List ℕ) → KeyTable h table.now → Fed h l s → Fed h (padded_of ((l ++ x.now) ++ y.now)) result }
{
    let t = feed(table, s, x);
    let u = feed(table, t, y);
    pad(table, u)
}

// The hash under the subkey of a table.
fn hash_by(table: &[[u64; 32]; 8], a: &[u8], b: &[u8], c: &[u8], d: &[u8]) -> [u8; 16]
    requires { ((length a.now < 2 ^ 59) × (length b.now < 2 ^ 59)) × ((length c.now < 2 ^ 59) × (length d.now < 2 ^ 59)) }
    ensures { (h : ℕ) → KeyTable h table.now → result ≡ hash_of h (a.now ++ b.now) (c.now ++ d.now) }
{
    let s = start();
    let t = feed_two(table, s, a, b);
    let u = feed_two(table, t, c, d);
    let m = a.len() + b.len();
    let n = c.len() + d.len();
    let last = finish(table, u, m, n);
    last.to_be_bytes()
}

// The hash under a subkey, whose multiples are made once: of the associated data a and b, and the cipher text c and d.
pub fn hash_parts(subkey: [u8; 16], a: &[u8], b: &[u8], c: &[u8], d: &[u8]) -> [u8; 16]
    requires { ((length a.now < 2 ^ 59) × (length b.now < 2 ^ 59)) × ((length c.now < 2 ^ 59) × (length d.now < 2 ^ 59)) }
    ensures { result ≡ hash_of (from_bytes subkey) (a.now ++ b.now) (c.now ++ d.now) }
{
    let table = key_table(Block::from_be_bytes(subkey));
    hash_by(&table, a, b, c, d)
}

// The hash of a buffer: what is outside its encrypted portion, and what is inside. Where nothing before the gap is encrypted, each is one part. And with two calls the compiler
// leaves `hash_parts` a function with a frame of its own: a caller of this one that goes on to the cipher does not carry the multiples along.
pub fn hash(subkey: [u8; 16], buf: &[u8], portion: Portion) -> [u8; 16]
    requires { (portion.rest ≤ length buf.now) × (length buf.now < 2 ^ 59) }
    ensures { result ≡ hash_of (from_bytes subkey) (outside_of portion.first portion.stop portion.rest buf.now) (inside_of portion.first portion.stop portion.rest buf.now) }
{
    let Portion { first, stop, rest } = portion;
    let none_before = first == stop;
    if none_before {
        return hash_parts(subkey, &buf[0..rest], &buf[0..0], &buf[0..0], &buf[rest..]);
    }
    hash_parts(
        subkey,
        &buf[0..first],
        &buf[stop..rest],
        &buf[first..stop],
        &buf[rest..],
    )
}
