// The line `make`.
ghost use Rattle.std.specs.Option.{IfNone};
ghost use Rattle.std.specs.Prelude.{◌≡◌};

use making::make::make;
use text::reading::{bytes, number};

// No last word, or `gcm`, as the call numbers the suites: it takes a number, into which an enum would only be turned again.
fn suite(words: &[&[u8]]) -> Option<u32> {
    match words {
        [] => Some(0),
        [b"gcm"] => Some(1),
        _ => None,
    }
}

// KEY SALT POLICY IDS, and gcm for the second suite: NO, or `None` where the words cannot be read, which changes nothing.
pub fn make_session(session: &mut [u64], words: &[&[u8]]) -> Option<u32>
    ensures { IfNone result (session.new ≡ session.old) }
{
    let [key, salt, policy, ids, last @ ..] = words else {
        return None;
    };
    let key = bytes::<1024>(key)?;
    let salt = bytes::<1024>(salt)?;
    let ids = bytes::<1024>(ids)?;
    Some(make(session, &key, &salt, number(policy)?, &ids, suite(last)?))
}
