// Document 01's sums run through the proved code: of the files beside src/, `stdin` has the sums, one to a line, and `stdout` what document 01 says.
// Follows document 01, "Sums on the bench".
#![tactic(auto)]

mod indices;
mod packets;

use lines::asked::Asked;
use lines::whole::read_full;
use packets::Pair;
use std::io;

// No more of the input is read.
const MOST: usize = 4096;

// What a sum is about.
#[derive(Clone, Copy)]
enum Sum {
    Received,
    Sent,
    Length { policy: u64 },
    Room,
    Passed,
}

impl Sum {
    // The first letter of a line says it: G and h ask what a receiver makes of a SEQ, S what a sender does, p and a which length fits, A which room, and i
    // is a packet from one session to the other.
    fn of(line: &[u8]) -> Self {
        match line.first() {
            Some(b'S') => Sum::Sent,
            Some(b'p') => Sum::Length { policy: 0 },
            Some(b'a') => Sum::Length { policy: 1 },
            Some(b'A') => Sum::Room,
            Some(b'i') => Sum::Passed,
            _ => Sum::Received,
        }
    }
}

// A sum of the numbers in a line's name and, of packets, the hex behind it.
fn answer(rt: &impl Print, line: &[u8], pair: &mut Pair) -> io::Result<()> {
    let asked = Asked::from(line);
    let hex = asked.given;
    let (before, last) = asked.numbers();
    rt.write_all(asked.name)?;
    rt.write_all(b": ")?;
    match Sum::of(line) {
        Sum::Received => indices::received(rt, before, last),
        Sum::Sent => indices::sent(rt, before, last),
        Sum::Length { policy } => packets::protected(rt, policy, hex, last as usize, 4096),
        Sum::Room => packets::protected(rt, 1, hex, hex.len() / 2, last as usize),
        Sum::Passed => pair.pass(rt, hex),
    }
}

fn main(rt: HostRuntime) -> io::Result<()> {
    let mut text = [0; MOST];
    let read = read_full(&mut rt.stdin(), &mut text)?;
    let mut pair = Pair::new();
    for line in text[..read].split_inclusive(|b| *b == b'\n') {
        answer(&rt, line.strip_suffix(b"\n").unwrap_or(line), &mut pair)?;
    }
    Ok(())
}
