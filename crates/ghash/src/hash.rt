// GHASH of bytes that come in parts, none of which need be whole blocks.
// Any lists may be lent, so whose multiples they are is a premise of what is said: of `add_blocks`, `multiplied`, `add_few`, `feed`, `pad` and `finish`.
ghost use Rattle.std.specs.Prelude.{◌≡◌, List, [], ◌++◌, ℕ, ◌+◌, ◌%◌, ◌^◌, ◌≤◌, ◌<◌, length};
ghost use Rattle.bits.specs.BigEndian.{to_bytes};
ghost use Rattle.ghash.specs.Ghash.{ghash_of, padded_of, lengths_of};
ghost use Rattle.gf128.specs.Product.{◌•◌};
ghost use Rattle.gf128.specs.Steps.{value_of};
ghost use Rattle.gf128_product.specs.Steps.{KeyTable};
ghost use Rattle.ghash.specs.Steps.{feed_of, Fed};

use crate::few::placed;
use crate::state::Hash;
use gf128::block::Block;
use gf128_product::product::product;

// Before the first byte.
pub fn start() -> Hash
    ensures begun_value { result.begun ≡ 0 }
    ensures by_index { (h : ℕ) → Fed h [] result }
{
    Hash {
        value: Block::ZERO,
        begun: 0,
    }
}

// The bytes of a part that is whole blocks, where no block is begun.
fn add_blocks(table: &[[u64; 32]; 8], s: Hash, part: &[u8]) -> Hash
    requires { length part.now % 16 ≡ 0 }
    ensures begun_value { result.begun ≡ s.begun }
    ensures by_index { (h : ℕ) → KeyTable h table.now → (0 < length part.now → s.begun ≡ 0) → value_of result.value ≡ feed_of h (value_of s.value) s.begun part.now }
{
    let mut value = s.value;
    let (blocks, _) = part.as_chunks::<16>();
    for block in blocks {
        let u = product(table, value.xor(Block::from_be_bytes(*block)));
        value = u;
    }
    Hash {
        value,
        begun: s.begun,
    }
}

// One product: the block of zeros after x. So the product has one call, in the loop above, and the compiler takes it into the loop.
fn multiplied(table: &[[u64; 32]; 8], x: Block) -> Block
    ensures { (h : ℕ) → KeyTable h table.now → value_of result ≡ value_of x • h }
{
    let zeros: [u8; 16] = [0; 16];
    let s = Hash { value: x, begun: 0 };
    let r = add_blocks(table, s, &zeros);
    r.value
}

// A few bytes, no more than the block begun still takes; its last byte brings the product.
fn add_few(table: &[[u64; 32]; 8], s: Hash, part: &[u8]) -> Hash
    requires { s.begun + length part.now ≤ 16 }
    ensures begun_value { result.begun ≡ (s.begun + length part.now) % 16 }
    ensures by_index { (h : ℕ) → KeyTable h table.now → value_of result.value ≡ feed_of h (value_of s.value) s.begun part.now }
{
    let n = part.len();
    if n == 0 {
        return s;
    }
    let x = s.value.xor(placed(part, s.begun));
    let end = s.begun + n;
    let whole = end == 16;
    if whole {
        let u = multiplied(table, x);
        return Hash { value: u, begun: 0 };
    }
    Hash {
        value: x,
        begun: end,
    }
}

// How many of `left` bytes the block begun still takes.
fn room(s: Hash, left: usize) -> usize
    ensures upper_bound { (result ≤ left) × (s.begun + result ≤ 16) }
    ensures result_value { result < left → (s.begun + result) % 16 ≡ 0 }
{
    left.min((16 - s.begun) % 16)
}

// The bytes of a part: those that the block begun still takes, whole blocks, and the rest.
pub fn feed(table: &[[u64; 32]; 8], s: Hash, part: &[u8]) -> Hash
    ensures begun_value { result.begun ≡ (s.begun + length part.now) % 16 }
    ensures by_index { (h : ℕ) (l : List ℕ) → KeyTable h table.now → Fed h l s → Fed h (l ++ part.now) result }
{
    let n = room(s, part.len());
    let m = n + (part.len() - n) / 16 * 16;
    let t = add_few(table, s, &part[..n]);
    let u = add_blocks(table, t, &part[n..m]);
    add_few(table, u, &part[m..])
}

// Zeros up to the end of the block begun.
pub fn pad(table: &[[u64; 32]; 8], s: Hash) -> Hash
    ensures begun_value { result.begun ≡ 0 }
    ensures by_index { (h : ℕ) (l : List ℕ) → KeyTable h table.now → Fed h l s → Fed h (padded_of l) result }
{
    let whole = s.begun == 0;
    if whole {
        return s;
    }
    let zeros = 16 - s.begun;
    let padded = multiplied(table, s.value);
    Hash {
        value: padded,
        begun: (s.begun + zeros) % 16,
    }
}

// The last block, two lengths in bytes, and the hash of the whole.
pub fn finish(table: &[[u64; 32]; 8], s: Hash, a: usize, c: usize) -> Block
    requires { (a < 2 ^ 60) × (c < 2 ^ 60) }
    ensures { (h : ℕ) (l : List ℕ) → KeyTable h table.now → Fed h l s → length l % 16 ≡ 0 → to_bytes 16 (value_of result) ≡ ghash_of h (l ++ lengths_of a c) }
{
    let lengths = Block {
        high: (8 * a) as u64,
        low: (8 * c) as u64,
    };
    multiplied(table, s.value.xor(lengths))
}
