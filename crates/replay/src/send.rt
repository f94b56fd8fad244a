// The step of a sender, in two halves: `send` gives the index of the next packet, which moves forward by 1 to 32,767, and writes nothing; `sent`
// writes, once the packet is made. Of its track a sender reads and writes the first two words only: started, and its last index.
ghost use Rattle.std.specs.Prelude.{◌≡◌, ◌≤◌, length};
ghost use Rattle.replay.specs.Send.{step_of, stepped_of, sent_of, send_of};
ghost use Rattle.replay.specs.Track.{state_in, state_words};

use crate::index::{LIMIT, first_index};
use bits::refusal::Refusal;

// From the last index to a sequence number, forward.
#[tactic(auto, unfolding(crate::specs::Send::step_of))]
fn step(last: u64, sequence: u16) -> u64
    ensures { result ≡ step_of last sequence }
{
    (u64::from(sequence) + 65536 - last % 65536) % 65536
}

// The index after the last one.
fn next(last: u64, sequence: u16) -> Result<u64, Refusal>
    ensures { result ≡ stepped_of last (step_of last sequence) }
{
    let step = step(last, sequence);
    if !(1..=32767).contains(&step) {
        Err(Refusal::Order)
    } else if LIMIT - step <= last {
        Err(Refusal::Worn)
    } else {
        Ok(last + step)
    }
}

// The answer for a sequence number. `rollover` is the starting rollover of the stream, which counts for its first packet only. Any words have an
// answer, also those that no list of packets leads to.
pub fn send(track: &[u64], rollover: u32, sequence: u16) -> Result<u64, Refusal>
    requires { 2 ≤ length track.now }
    ensures { result ≡ (send_of (state_in track.now) rollover sequence).judged }
{
    if track[0] == 1 {
        next(track[1], sequence)
    } else {
        Ok(first_index(rollover, sequence))
    }
}

// One index more sent: two words written, the ring as it was. A sender keeps its last index only.
pub fn sent(track: &mut [u64], index: u64)
    requires { 2 ≤ length track.old }
    ensures { track.new ≡ state_words (sent_of (state_in track.old) (Ok index)) }
{
    track[0] = 1;
    track[1] = index;
}
