// The line `add`.
ghost use Rattle.std.specs.Option.{IfNone};
ghost use Rattle.std.specs.Prelude.{◌≡◌};

use adding::add::add;
use text::reading::{array, number};

// s and r, as the call numbers them: it takes a number, into which an enum would only be turned again.
fn way(word: &[u8]) -> Option<u32> {
    match word {
        b"s" => Some(0),
        b"r" => Some(1),
        _ => None,
    }
}

// SSRC WAY ROLLOVER: NO, or `None` where the words cannot be read, which changes nothing.
pub fn add_stream(session: &mut [u64], words: &[&[u8]]) -> Option<u32>
    ensures { IfNone result (session.new ≡ session.old) }
{
    let [ssrc, way_word, rollover] = words else {
        return None;
    };
    let ssrc = u32::from_be_bytes(array(ssrc)?);
    Some(add(session, ssrc, way(way_word)?, number(rollover)?))
}
