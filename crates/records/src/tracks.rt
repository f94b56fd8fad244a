// The replay state of a record where it lies: a sequence number judged beside it, and an index stored in it. No word of it is copied.
ghost use Rattle.std.specs.Prelude.{◌≡◌, ◌<◌};
ghost use Rattle.session.specs.Calls.{with_replay_at};
ghost use Rattle.session.specs.Memory.{record_place};
ghost use Rattle.records.specs.Tracks.{record_in, judged_by, committed_by};

use bits::refusal::Refusal;
use policies::policy::Way;
use replay::receive::{accept, receive};
use replay::send::{send, sent};
use session::layout::{EACH, FRONT, REPLAY, REPLAY_END, ROLLOVER, SIZE};
use session::load::low;

// An index this far or more behind the highest is old.
const WIDTH: u64 = 64;

// Where record i begins, one of 32.
pub fn record_place(i: usize) -> usize
    requires { i < 32 }
    ensures { result ≡ record_place i }
{
    FRONT + EACH * i
}

// The index of a packet with this sequence number, or the refusal. Nothing is written.
pub fn judge(session: &[u64; SIZE], i: usize, way: Way, sequence: u16) -> Result<u64, Refusal>
    requires { i < 32 }
    ensures { result ≡ judged_by way (record_in session.now i) sequence }
{
    let at = record_place(i);
    let rollover = low(session[at + ROLLOVER]);
    let track = &session[at + REPLAY..at + REPLAY_END];
    match way {
        Way::Sending => send(track, rollover, sequence),
        Way::Receiving => receive(track, WIDTH, rollover, sequence).judged,
    }
}

// The record as it becomes once a packet with this index was sent or accepted.
pub fn commit(session: &mut [u64; SIZE], i: usize, way: Way, index: u64)
    requires { i < 32 }
    ensures { session.new ≡ with_replay_at session.old i (committed_by way (record_in session.old i) index) }
{
    let at = record_place(i);
    let track = &mut session[at + REPLAY..at + REPLAY_END];
    match way {
        Way::Sending => sent(track, index),
        Way::Receiving => accept(track, index),
    }
}
