// Bytes in 64-bit words.
ghost use Rattle.std.specs.Prelude.{◌≡◌, ◌≤◌, length};
ghost use Rattle.memory.specs.Words.{bytes_in, halves, Lasts};

use bits::big_endian::{read64, write64};

// The N bytes, 8 to 16, of two words: the second has what is left for it, in its low bytes.
pub fn bytes<const N: usize>(a: u64, b: u64) -> [u8; N]
    requires { (8 ≤ N) × (N ≤ 16) }
    ensures { result ≡ bytes_in N a b }
{
    let mut bytes = [0u8; N];
    let (high, low) = bytes.as_mut_slice().split_at_mut(8);
    high.copy_from_slice(&write64(a));
    low.copy_from_slice(&write64(b)[16 - N..]);
    bytes
}

// The two words of 8 to 16 bytes.
pub fn halves(bytes: &[u8]) -> [u64; 2]
    requires { (8 ≤ length bytes.now) × (length bytes.now ≤ 16) }
    ensures value { result ≡ halves bytes.now }
    ensures lasts { Lasts (length bytes.now) bytes.now }
{
    let (first, rest) = bytes.split_at(8);
    let mut high = [0u8; 8];
    high.copy_from_slice(first);
    let mut low = [0u8; 8];
    low[8 - rest.len()..].copy_from_slice(rest);
    [read64(high), read64(low)]
}
