// A key and a salt as arrays.
ghost use Rattle.std.specs.Prelude.{◌≡◌, ◌++◌, ◌-◌, ◌≤◌, length, replicate};

// The bytes of a slice of N.
pub fn array<const N: usize>(b: &[u8]) -> [u8; N]
    requires { length b.now ≡ N }
    ensures { result ≡ b.now }
{
    let mut a = [0u8; N];
    a.copy_from_slice(b);
    a
}

// A slice of N bytes, or a shorter one with zeros after it.
pub fn filled<const N: usize>(b: &[u8]) -> [u8; N]
    requires { length b.now ≤ N }
    ensures { result ≡ b.now ++ replicate (N - length b.now) 0 }
{
    let mut a = [0u8; N];
    a[..b.len()].copy_from_slice(b);
    a
}
