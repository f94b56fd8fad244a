// Bytes as an array of a given length.
ghost use Rattle.std.specs.Prelude.{◌≡◌, ◌++◌, ◌-◌, length, take, replicate};

use bits::arrays::filled;

// The first N; zeros where there are fewer.
pub fn padded<const N: usize>(bytes: &[u8]) -> [u8; N]
    ensures { result ≡ take N bytes.now ++ replicate (N - length bytes.now) 0 }
{
    filled(&bytes[..bytes.len().min(N)])
}
