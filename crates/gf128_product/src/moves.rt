// A block moved by some bits.
ghost use Rattle.std.specs.Prelude.{◌≡◌, ◌≤◌, ◌<◌};
ghost use Rattle.gf128.specs.Steps.{value_of};
ghost use Rattle.gf128_product.specs.Steps.{nexts_of};

use gf128::block::Block;

// Times x^n. What falls off at the end comes back in front, where R has its four bits: at places 0, 1, 2 and 7.
pub fn moved(z: Block, n: usize) -> Block
    requires { (0 < n) × (n ≤ 32) }
    ensures { value_of result ≡ nexts_of n (value_of z) }
{
    let m = 64 - n;
    let off = z.low << m;
    Block {
        high: (z.high >> n) ^ (off ^ (off >> 1) ^ (off >> 2) ^ (off >> 7)),
        low: (z.high << m) | (z.low >> n),
    }
}
