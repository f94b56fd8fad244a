// The empty block that Cryptex adds.
ghost use Rattle.std.specs.Prelude.{◌≡◌, ◌++◌, ◌+◌, ◌≤◌, ◌<◌, length, get_or, take, drop};
ghost use Rattle.policies.specs.Cryptex.{with_block};
ghost use Rattle.cryptex.specs.Steps.{raised_of};

// The bytes from `at` up to `n` move four places up.
fn raise(buf: &mut [u8], at: usize, n: usize)
    requires { (at ≤ n) × (n + 4 ≤ length buf.old) }
    ensures { buf.new ≡ raised_of at n buf.old }
{
    buf.copy_within(at..n, at + 4);
}

// A packet of n bytes whose contributing sources end at `at` becomes one of n + 4, with X = 1 and BEDE 0000 after them. (n stands beside the buffer, which has room behind
// the packet: what follows stays.)
pub fn add_block(buf: &mut [u8], at: usize, n: usize)
    requires { (0 < at) × ((at ≤ n) × ((n + 4 ≤ length buf.old) × (get_or buf.old 0 0 < 240))) }
    ensures { buf.new ≡ with_block (take n buf.old) at ++ drop (n + 4) buf.old }
{
    raise(buf, at, n);
    buf[at..at + 4].copy_from_slice(&[0xBE, 0xDE, 0, 0]);
    buf[0] += 16;
}
