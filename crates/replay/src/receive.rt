// The step of a receiver, in two halves: `receive` judges a sequence number beside the stream's track and writes nothing, and `accept` writes,
// once the packet's tag is right. The track lies in memory that the caller lends: started, highest, ring. No part of it is copied.
ghost use Rattle.std.specs.Prelude.{◌≡◌, ◌+◌, ◌≤◌, max, eqb, leb, length, drop, pos, ◌+ℤ◌};
ghost use Rattle.bits.specs.Pick.{pick};
ghost use Rattle.replay.specs.State.{judge_of, accept_of};
ghost use Rattle.replay.specs.Receive.{judge_index};
ghost use Rattle.replay.specs.Steps.{arrival_of};
ghost use Rattle.replay.specs.Track.{blocks_in, started_in, state_in, state_words};

use crate::guess::guess;
use crate::index::{LIMIT, first_index};
use crate::ring::{mark, seen};
use bits::refusal::Refusal;

// `distance` is the guessed index less the highest accepted one, from -32,768 to 32,768. Of a stream's first packet it is free, and told as 0.
#[derive(Clone, Copy)]
pub struct Arrival {
    pub judged: Result<u64, Refusal>,
    pub distance: i32,
}

// The index is `width` or more behind the highest.
fn is_old(highest: u64, width: u64, index: u64) -> bool
    ensures { result ≡ leb (index + width) highest }
{
    index <= highest && width <= highest - index
}

// Old, repeated, or to be accepted, of a stream that had a packet.
#[tactic(auto, unfolding(crate::specs::State::judge_of))]
fn judge(ring: &[u64], highest: u64, width: u64, index: u64) -> Result<u64, Refusal>
    requires { 2 ≤ length ring.now }
    ensures { result ≡ judge_of (blocks_in ring.now) width (started_in highest ring.now) index }
{
    if is_old(highest, width, index) {
        Err(Refusal::Old)
    } else if seen(ring, index) {
        Err(Refusal::Repeat)
    } else {
        Ok(index)
    }
}

// The index at a distance from the highest: old below 0, worn from 2^48 on, else judged. Told in 128 bits, which hold it whatever the highest is.
fn judge_guess(ring: &[u64], highest: u64, width: u64, distance: i32) -> Result<u64, Refusal>
    requires { 2 ≤ length ring.now }
    ensures { result ≡ judge_index (blocks_in ring.now) width (started_in highest ring.now) (pos highest +ℤ distance) }
{
    let guessed = i128::from(highest) + i128::from(distance);
    if guessed < 0 {
        Err(Refusal::Old)
    } else if i128::from(LIMIT) <= guessed {
        Err(Refusal::Worn)
    } else {
        judge(ring, highest, width, guessed as u64)
    }
}

// The answer for a sequence number. `rollover` is the starting rollover of the stream, which counts for its first packet only. Any words have an
// answer, also those that no list of packets leads to. (Whether it started and its highest index are words of lent memory, so they come as numbers.)
pub fn receive(track: &[u64], width: u64, rollover: u32, sequence: u16) -> Arrival
    requires { 4 ≤ length track.now }
    ensures { result ≡ arrival_of (blocks_in (drop 2 track.now)) width (state_in track.now) rollover sequence }
{
    if track[0] == 1 {
        let highest = track[1];
        let distance = guess(highest, sequence);
        let judged = judge_guess(&track[2..], highest, width, distance);
        Arrival { judged, distance }
    } else {
        let judged = Ok(first_index(rollover, sequence));
        Arrival {
            judged,
            distance: 0,
        }
    }
}

// The highest index with one more accepted: a first one is the highest.
fn highest_with(started: u64, highest: u64, index: u64) -> u64
    ensures { result ≡ pick (eqb started 1) (max highest index) index }
{
    if started == 1 {
        highest.max(index)
    } else {
        index
    }
}

// One index more accepted: four words written, the others as they were.
pub fn accept(track: &mut [u64], index: u64)
    requires { 4 ≤ length track.old }
    ensures { track.new ≡ state_words (accept_of (blocks_in (drop 2 track.old)) (state_in track.old) index) }
{
    let highest = highest_with(track[0], track[1], index);
    mark(&mut track[2..], index);
    track[0] = 1;
    track[1] = highest;
}
