// Fewer bytes than a block, read together and put at their places in one.
ghost use Rattle.std.specs.Prelude.{◌≡◌, ◌+◌, ◌-◌, ◌*◌, ◌^◌, ◌≤◌, ◌<◌, length};
ghost use Rattle.bits.specs.BigEndian.{from_bytes};
ghost use Rattle.gf128.specs.Steps.{value_of};

use gf128::block::Block;

// The number that up to eight bytes are. (A loop, since std's `from_be_bytes` takes eight alone.)
fn number(part: &[u8]) -> u64
    requires { length part.now ≤ 8 }
    ensures { result ≡ from_bytes part.now }
{
    let mut x: u64 = 0;
    for b in part {
        x = x * 256 + u64::from(*b);
    }
    x
}

// The same with n zero bytes after it.
fn moved(part: &[u8], n: usize) -> u64
    requires { (0 < length part.now) × (length part.now + n ≤ 8) }
    ensures { result ≡ from_bytes part.now * 2 ^ (8 * n) }
{
    number(part) << (8 * n)
}

// The bytes of a part as the bytes of a block from place k on: in its first half, in its second, or across both.
pub fn placed(part: &[u8], k: usize) -> Block
    requires { (0 < length part.now) × (k + length part.now ≤ 16) }
    ensures { value_of result ≡ from_bytes part.now * 2 ^ (8 * (16 - (k + length part.now))) }
{
    let end = k + part.len();
    if end <= 8 {
        return Block {
            high: moved(part, 8 - end),
            low: 0,
        };
    }
    if 8 <= k {
        return Block {
            high: 0,
            low: moved(part, 16 - end),
        };
    }
    let m = 8 - k;
    Block {
        high: number(&part[..m]),
        low: moved(&part[m..], 16 - end),
    }
}
