// The whole: SHA-1 of a message.
ghost use Rattle.std.specs.Prelude.{◌≡◌, ◌<◌, ◌^◌, length};
ghost use Rattle.sha1_compress.specs.Hash.{start_of, digest_of, sha1_of};

use sha1_message::message::finish;

// The initial hash value.
pub fn start() -> [u32; 5]
    ensures { result ≡ start_of }
{
    [0x67452301, 0xefcdab89, 0x98badcfe, 0x10325476, 0xc3d2e1f0]
}

// The hash value's twenty bytes.
pub fn digest(h: [u32; 5]) -> [u8; 20]
    ensures { result ≡ digest_of h }
{
    let mut out = [0u8; 20];
    for (i, word) in h.iter().enumerate() {
        out[4 * i..4 * i + 4].copy_from_slice(&word.to_be_bytes());
    }
    out
}

// SHA-1.
pub fn sha1(m: &[u8]) -> [u8; 20]
    requires { length m.now < 2 ^ 60 }
    ensures { result ≡ sha1_of m.now }
{
    let n = m.len();
    let none = &m[n..];
    digest(finish(start(), 0, m, none))
}
