// Published test vectors, and three packets of libsrtp's, through the proved code: `stdin` beside src/ has them, `stdout` what was published, or sent by it.
// Follows FIPS 197 (appendices B and C.1), SP 800-38A (F.1.1), FIPS 180 (examples), RFC 2202 (section 3), RFC 3711 (B.2, B.3),
// the submission of GCM to NIST (appendix B, cases 1 to 4), RFC 6904 (A.1, A.2) and RFC 9335 (A.1, A.2).
#![tactic(auto)]

use cipher_vectors::{ciphers, hashes, sealed};
use extension_vectors::extensions;
use lines::asked::Asked;
use lines::hex;
use lines::whole::read_full;
use packet_vectors::packets::{Setup, both_ways};
use std::io;
use suites::suite::Suite;

// No more of the input is read.
const MOST: usize = 65536;

// What a vector is of.
#[derive(Clone, Copy)]
enum Kind {
    Aes,
    Sha1,
    Repeated,
    Hmac,
    Keystream,
    Neighbours,
    Derived,
    Gcm,
    Pad,
    Mask,
    Element,
    Cryptex,
    Both,
    Wire,
}

impl Kind {
    // The first letter of the word behind the name says it: aes, sha1, repeated, hmac, keystream, neighbours, derived, gcm, pad, mask, element, cryptex or
    // both; with GCM wire.
    fn of(word: &[u8]) -> Option<Self> {
        match word.first()? {
            b'a' => Some(Kind::Aes),
            b's' => Some(Kind::Sha1),
            b'r' => Some(Kind::Repeated),
            b'h' => Some(Kind::Hmac),
            b'k' => Some(Kind::Keystream),
            b'n' => Some(Kind::Neighbours),
            b'd' => Some(Kind::Derived),
            b'g' => Some(Kind::Gcm),
            b'p' => Some(Kind::Pad),
            b'm' => Some(Kind::Mask),
            b'e' => Some(Kind::Element),
            b'c' => Some(Kind::Cryptex),
            b'b' => Some(Kind::Both),
            b'w' => Some(Kind::Wire),
            _ => None,
        }
    }
}

// A vector of up to three words of hex, the third of which may be changed.
fn vector(
    rt: &impl Print,
    kind: Kind,
    asked: &Asked,
    a: &[u8],
    b: &[u8],
    c: &mut [u8],
) -> io::Result<()> {
    let name = asked.name;
    let (_, number) = asked.numbers();
    let setup = |policy, suite| Setup {
        policy,
        suite,
        key: a,
        salt: b,
    };
    match kind {
        Kind::Aes => ciphers::block(rt, a, b),
        Kind::Sha1 => hashes::hash(rt, a),
        Kind::Repeated => hashes::repeated(rt),
        Kind::Hmac => hashes::code(rt, a, b),
        Kind::Keystream => ciphers::keystream(rt, a, b, number),
        Kind::Neighbours => ciphers::neighbours(rt, a, b, number),
        Kind::Derived => ciphers::derived(rt, a, b, number),
        Kind::Gcm => sealed::sealed(rt, a, b, number, c),
        Kind::Pad => extensions::pad(rt, a, b),
        Kind::Mask => extensions::masked(rt, a, b, c),
        Kind::Element => extensions::element(rt, a, number),
        Kind::Cryptex => both_ways(rt, name, &setup(1, Suite::CmHmac), c),
        Kind::Both => both_ways(rt, name, &setup(number, Suite::CmHmac), c),
        Kind::Wire => both_ways(rt, name, &setup(number, Suite::Gcm), c),
    }
}

// A line's name is printed, and then what the code makes of its words.
fn answer(rt: &impl Print, line: &[u8]) -> io::Result<()> {
    if line.starts_with(b"#") {
        return Ok(());
    }
    let asked = Asked::from(line);
    rt.write_all(asked.name)?;
    rt.write_all(b" ")?;
    let mut words = asked.given.split(|b| *b == b' ');
    let Some(kind) = words.next().and_then(Kind::of) else {
        return Ok(());
    };
    let a = hex::word::<256>(words.next().unwrap_or_default());
    let b = hex::word::<256>(words.next().unwrap_or_default());
    let mut c = hex::word::<256>(words.next().unwrap_or_default());
    vector(
        rt,
        kind,
        &asked,
        a.as_slice(),
        b.as_slice(),
        c.as_mut_slice(),
    )
}

fn main(rt: HostRuntime) -> io::Result<()> {
    let mut text = [0; MOST];
    let read = read_full(&mut rt.stdin(), &mut text)?;
    for line in text[..read].split_inclusive(|b| *b == b'\n') {
        answer(&rt, line.strip_suffix(b"\n").unwrap_or(line))?;
    }
    Ok(())
}
