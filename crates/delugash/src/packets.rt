// The packet calls.
ghost use Rattle.std.specs.Prelude.{◌≡◌};
ghost use Rattle.session.specs.Calls.{Gives, protect_call, unprotect_call};
ghost use Rattle.srtp.specs.Finding.{find_call};

use session::answer::Answer;
use srtp::find::{Part, find};
use srtp::protect::protect;
use srtp::unprotect::unprotect;

#[unsafe(no_mangle)]
pub extern "C" fn delugash_protect(session: &mut [u64], buf: &mut [u8], n: usize) -> Answer
    ensures { Gives (protect_call session.old buf.old n) result buf.new session.new }
{
    protect(session, buf, n)
}

#[unsafe(no_mangle)]
pub extern "C" fn delugash_unprotect(session: &mut [u64], buf: &mut [u8], n: usize) -> Answer
    ensures { Gives (unprotect_call session.old buf.old n) result buf.new session.new }
{
    unprotect(session, buf, n)
}

#[unsafe(no_mangle)]
pub extern "C" fn delugash_find(packet: &[u8], id: u32) -> Part
    ensures { result ≡ find_call packet.now id }
{
    find(packet, id)
}
