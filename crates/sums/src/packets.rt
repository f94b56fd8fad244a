// Limits of length and room, and two packets whose indices are 65,536 apart, by the public calls.
use adding::add::add;
use lines::hex::padded;
use lines::outcome::{Refused, Told, put_line};
use making::make::make;
use session::answer::Answer;
use session::layout::SIZE;
use srtp::protect::protect;
use srtp::unprotect::unprotect;
use std::io;

// A session with the streams that the packets have: SSRC 0, and that of RFC 9335's packets. Keys of zeros. Policy and way are the public calls' numbers:
// of the ways 0 sends, and 1 receives.
fn session(policy: u64, way: u32) -> [u64; SIZE] {
    let mut session = [0; SIZE];
    let key = [0; 16];
    make(&mut session, &key, &[0; 14], policy, &key, 0);
    add(&mut session, 0, way, 0);
    add(&mut session, 0xcafebabe, way, 0);
    session
}

// The packet's new length.
fn length(answer: Answer) -> Result<usize, Refused> {
    match answer.number {
        0 => Ok(answer.length),
        number => Err(Refused(number)),
    }
}

// The packet of n bytes that starts as the hex and goes on with zeros, in a buffer of this size.
pub fn protected(
    rt: &impl Print,
    policy: u64,
    hex: &[u8],
    n: usize,
    size: usize,
) -> io::Result<()> {
    let mut packet = padded::<4096>(hex);
    match packet.get_mut(..size) {
        Some(buf) => put_line(
            rt,
            length(protect(&mut session(policy, 0), buf, n)).map(Told::Length),
        ),
        None => Ok(()),
    }
}

// Two sessions, and packets on their way from one to the other.
#[derive(Clone, Copy)]
pub struct Pair {
    sender: [u64; SIZE],
    receiver: [u64; SIZE],
}

impl Pair {
    pub fn new() -> Self {
        Pair {
            sender: session(0, 0),
            receiver: session(0, 1),
        }
    }

    // A packet of 13 bytes, the last of which is its payload.
    // After an error of printing, the sessions are as after a packet that was told of.
    pub fn pass(&mut self, rt: &impl Print, hex: &[u8]) -> io::Result<()> {
        let mut buf = padded::<32>(hex);
        let sent = protect(&mut self.sender, &mut buf, 13);
        let got = unprotect(&mut self.receiver, &mut buf, sent.length);
        let payload = buf[12];
        put_line(
            rt,
            length(got).map(|length| Told::GivenBack { length, payload }),
        )
    }
}
