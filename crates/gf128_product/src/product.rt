// The product with a hash subkey, 32 bits of the other factor at a time, its lowest first: the product so far moves by 32 bits, and what these bits
// bring is added, which eight entries of the subkey's table make. No entry waits for another, and only the moves for each other.
// Numbers are taken apart by / and %, as the sum over their bits takes them.
// Any lists may be lent, so whose multiples they are is a premise of what each function here says.
ghost use Rattle.std.specs.Prelude.{◌≡◌, ℕ, ◌+◌, ◌*◌, ◌<◌};
ghost use Rattle.gf128.specs.Product.{sum_of, ◌•◌};
ghost use Rattle.gf128.specs.Steps.{value_of};
ghost use Rattle.gf128_product.specs.Steps.{nexts_of, more_of, KeyTable};

use crate::moves::moved;
use gf128::block::Block;

// What the four bits k bring, at place i of the eight.
fn entry(table: &[[u64; 32]; 8], i: usize, k: usize) -> Block
    requires { (i < 8) × (k < 16) }
    ensures { (h : ℕ) → KeyTable h table.now → value_of result ≡ sum_of 4 k (nexts_of (4 * i) h) }
{
    Block {
        high: table[i][k],
        low: table[i][k + 16],
    }
}

// What a byte brings from place i on; two bytes; four, from the first place.
fn byte(table: &[[u64; 32]; 8], i: usize, b: u8) -> Block
    requires { i + 1 < 8 }
    ensures { (h : ℕ) → KeyTable h table.now → value_of result ≡ sum_of 8 b (nexts_of (4 * i) h) }
{
    let first = entry(table, i, (b / 16) as usize);
    let second = entry(table, i + 1, (b % 16) as usize);
    first.xor(second)
}

fn two(table: &[[u64; 32]; 8], i: usize, w: u16) -> Block
    requires { i + 3 < 8 }
    ensures { (h : ℕ) → KeyTable h table.now → value_of result ≡ sum_of 16 w (nexts_of (4 * i) h) }
{
    let first = byte(table, i, (w / 256) as u8);
    let second = byte(table, i + 2, (w % 256) as u8);
    first.xor(second)
}

fn four(table: &[[u64; 32]; 8], w: u32) -> Block
    ensures { (h : ℕ) → KeyTable h table.now → value_of result ≡ sum_of 32 w h }
{
    let first = two(table, 0, (w / 65536) as u16);
    let second = two(table, 4, (w % 65536) as u16);
    first.xor(second)
}

// The product so far with 32 bits more.
fn more(table: &[[u64; 32]; 8], z: Block, w: u32) -> Block
    ensures { (h : ℕ) → KeyTable h table.now → value_of result ≡ more_of 32 h (value_of z) w }
{
    moved(z, 32).xor(four(table, w))
}

// The product of a block with the subkey of the table.
pub fn product(table: &[[u64; 32]; 8], x: Block) -> Block
    ensures { (h : ℕ) → KeyTable h table.now → value_of result ≡ value_of x • h }
{
    let a = more(table, Block::ZERO, (x.low % 4294967296) as u32);
    let b = more(table, a, (x.low / 4294967296) as u32);
    let c = more(table, b, (x.high % 4294967296) as u32);
    more(table, c, (x.high / 4294967296) as u32)
}
