// A session: how much memory it takes, made, and a stream added to it.
ghost use Rattle.std.specs.Prelude.{◌≡◌, ◌<◌, length};
ghost use Rattle.suites.specs.Suites.{suite_of};
ghost use Rattle.session.specs.Calls.{Leaves, make_call, add_call};
ghost use Rattle.session.specs.Making.{make_of};
ghost use Rattle.session.specs.Memory.{size, decode};

use adding::add::add;
use making::make::make;
use session::layout::SIZE;

// In words of 64 bits.
#[unsafe(no_mangle)]
pub extern "C" fn delugash_size() -> usize
    ensures { result ≡ size }
{
    SIZE
}

#[unsafe(no_mangle)]
pub extern "C" fn delugash_make(
    session: &mut [u64],
    key: &[u8],
    salt: &[u8],
    policy: u64,
    ids: &[u8],
    suite: u32,
) -> u32
    ensures leaves { Leaves (make_call session.old key.now salt.now policy ids.now suite) result session.new }
    ensures session_after { length session.old ≡ size → suite < 2 → decode session.new ≡ (make_of (suite_of suite) key.now salt.now policy ids.now).session }
{
    make(session, key, salt, policy, ids, suite)
}

#[unsafe(no_mangle)]
pub extern "C" fn delugash_add(session: &mut [u64], ssrc: u32, way: u32, rollover: u32) -> u32
    ensures { Leaves (add_call session.old ssrc way rollover) result session.new }
{
    add(session, ssrc, way, rollover)
}
