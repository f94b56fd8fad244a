// What every packet call asks before it uses a key, with the way as an argument.
ghost use Rattle.std.specs.Prelude.{◌≡◌, ◌≤◌, length};
ghost use Rattle.front.specs.Opening.{stream_of, in_session_of, open_of, InStream, OpensAs, Opens};

use crate::fields::{sequence_number, ssrc};
use bits::refusal::{Border, Refusal};
use policies::judge::{added, judge};
use policies::policy::Way;
use records::places::place_of;
use records::tracks;
use rtp_header::header::Layout;
use session::layout::SIZE;
use session::load::{load_policy, load_suite};

// The header reader's answer, which now also says whether the packet has room, a stream and an index; the place of the stream's record, and the index: 0 and 0 with a refusal.
#[derive(Clone, Copy)]
pub struct Opened {
    pub header: Result<Layout, Refusal>,
    pub place: usize,
    pub index: u64,
}

// STREAM, and then the refusals of the index rule, 10 to 13.
fn in_stream(
    session: &[u64; SIZE],
    packet: &[u8],
    way: Way,
    layout: Layout,
) -> Result<Opened, Refusal>
    requires { 12 ≤ length packet.now }
    ensures value { result ≡ stream_of way session.now packet.now layout }
    ensures in_stream { InStream way session.now packet.now result }
{
    let Some(place) = place_of(session, ssrc(packet), way) else {
        return Err(Refusal::Stream);
    };
    let index = tracks::judge(session, place, way, sequence_number(packet))?;
    Ok(Opened {
        header: Ok(layout),
        place,
        index,
    })
}

// LENGTH, SHORT to LARGE, ROOM, and then the rest. The second `ensures` follows from the first; callers have it ready.
fn in_session(session: &[u64; SIZE], buf: &[u8], n: usize, way: Way) -> Result<Opened, Refusal>
    ensures value { result ≡ in_session_of way session.now buf.now n }
    ensures opens_as { OpensAs way session.now buf.now n result }
{
    if buf.len() < n {
        return Err(Refusal::Length);
    }
    let packet = &buf[..n];
    let policy = load_policy(session[0]);
    let t = load_suite(session[0]).tag_length();
    let layout = judge(packet, way, policy, t)?;
    if buf.len() - n < added(way, policy, layout, t) {
        return Err(Refusal::Room);
    }
    in_stream(session, packet, way, layout)
}

// The same on any memory, whose size is asked first; a refusal stands in the header. The second `ensures` follows from the first; callers have it ready.
// (Buffer and length as the call lends them.)
pub fn open(session: &[u64], buf: &[u8], n: usize, way: Way) -> Result<Opened, Border>
    ensures value { result ≡ open_of way session.now buf.now n }
    ensures opens { Opens way session.now buf.now n result }
{
    let Some(session) = session.as_array::<SIZE>() else {
        return Err(Border::Memory);
    };
    match in_session(session, buf, n, way) {
        Ok(opened) => Ok(opened),
        Err(refusal) => Ok(Opened {
            header: Err(refusal),
            place: 0,
            index: 0,
        }),
    }
}
