// The index of a packet, by the two steps alone.
use bits::refusal::Refusal;
use lines::outcome::{Refused, Told, put_line};
use replay::receive::{accept, receive};
use replay::send;
use std::io;

fn put(rt: &impl Print, judged: Result<u64, Refusal>) -> io::Result<()> {
    put_line(rt, judged.map(Told::Index).map_err(Refused::from))
}

// SEQ received where this is the highest accepted index, and the only one accepted. 64 indices are remembered.
pub fn received(rt: &impl Print, highest: u64, sequence: u64) -> io::Result<()> {
    let mut track = [0; 6];
    accept(&mut track, highest);
    put(rt, receive(&track, 64, 0, (sequence % 65536) as u16).judged)
}

// SEQ sent where this is the last index sent.
pub fn sent(rt: &impl Print, last: u64, sequence: u64) -> io::Result<()> {
    let mut track = [0; 2];
    send::sent(&mut track, last);
    put(rt, send::send(&track, 0, (sequence % 65536) as u16))
}
