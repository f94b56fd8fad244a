// Packets protected and given back by the public calls.
ghost use Rattle.std.specs.Prelude.{◌≡◌, length};

use adding::add::add;
use lines::hex::Hex;
use making::make::make;
use session::layout::SIZE;
use srtp::protect::protect;
use srtp::unprotect::unprotect;
use std::io;
use suites::suite::Suite;

// What both sides of a packet's way agree on.
#[derive(Clone, Copy)]
pub struct Setup<'a> {
    pub policy: u64,
    pub suite: Suite,
    pub key: &'a [u8],
    pub salt: &'a [u8],
}

impl Setup<'_> {
    // A session with the ids 1, 3 and 4 and the stream cafebabe. Policy and way are the public calls' numbers: of the ways 0 sends, and 1 receives.
    fn begin(&self, session: &mut [u64], way: u32) {
        let suite = self.suite as u32;
        make(session, self.key, self.salt, self.policy, &[1, 3, 4], suite);
        add(session, 0xcafebabe, way, 0);
    }
}

// The first bytes of a buffer; none after a refusal.
fn put_packet(rt: &impl Print, what: &str, buf: &[u8], length: usize) -> io::Result<()> {
    print!(rt; "{what} ")?;
    match buf.get(..length) {
        Some(packet) => println!(rt; "{}", Hex(packet)),
        None => Ok(()),
    }
}

// The packet in the buffer, whose last bytes are room for the suite's tag, as it is sent; and then, behind the vector's name, the way back. An error of
// printing leaves the buffer with the packet as it was last told of.
pub fn both_ways(rt: &impl Print, name: &[u8], setup: &Setup, buf: &mut [u8]) -> io::Result<()>
    ensures { length buf.new ≡ length buf.old }
{
    let Some(n) = buf.len().checked_sub(setup.suite.tag_length()) else {
        return Ok(());
    };
    let mut session = [0; SIZE];
    setup.begin(&mut session, 0);
    let sent = protect(&mut session, buf, n);
    put_packet(rt, "wire", buf, sent.length)?;
    setup.begin(&mut session, 1);
    let got = unprotect(&mut session, buf, sent.length);
    rt.write_all(name)?;
    put_packet(rt, " back", buf, got.length)
}
