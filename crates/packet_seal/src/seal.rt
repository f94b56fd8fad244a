// A packet under the suite of its session.
ghost use Rattle.std.specs.Prelude.{◌≡◌, ◌≤◌, length, take, Ok};
ghost use Rattle.bits.specs.Pick.{pick};
ghost use Rattle.rtp_elements.specs.Mask.{listed_in};
ghost use Rattle.suites.specs.Suites.{tag_length_of};
ghost use Rattle.policies.specs.Judging.{judged_of};
ghost use Rattle.policies.specs.Shapes.{Shaped};
ghost use Rattle.packet_cipher.specs.Cipher.{cipher_of};
ghost use Rattle.packet_cipher.specs.Tag.{tag_of};
ghost use Rattle.wire.specs.Wire.{tag_fits};
ghost use Rattle.wire.specs.Steps.{opened_of};

use bits::arrays::filled;
use cm_packet::cm::{open_cm, seal_cm};
use gcm_packet::aead::{open_gcm, seal_gcm};
use packet_cipher::context::Context;
use policies::policy::Way;
use rtp_header::header::Layout;
use suites::suite::Suite;

// A tag of sixteen bytes at the front of as many as the longest code has.
fn in_front(tag: [u8; 16]) -> [u8; 20]
    ensures { take 16 result ≡ tag }
{
    filled(&tag)
}

// The packet, whose layout is h, encrypted; bytes of which the first, as many as the suite's tag has, are its tag.
// Two functions and no trait over the suites: each RFC makes its own packet, and what they share, the four laws that `wire` asks of a cipher, stands in its definitions.
pub fn seal(context: &Context, packet: &mut [u8], h: Layout) -> [u8; 20]
    requires { Shaped context.now.policy packet.old (length packet.old) h }
    ensures packet_after { packet.new ≡ cipher_of context.now.suite context.now.keys context.now.policy (listed_in context.now.ids) context.now.ssrc context.now.index packet.old }
    ensures result_value { take (tag_length_of context.now.suite) result ≡ tag_of context.now.suite context.now.keys context.now.policy context.now.ssrc context.now.index packet.new }
{
    match context.suite {
        Suite::CmHmac => seal_cm(context, packet, h),
        Suite::Gcm => in_front(seal_gcm(context, packet, h)),
    }
}

// Whether the tag of the packet of n bytes, whose layout is h, is right: it is compared before anything is decrypted. Where it is wrong, nothing is written. (n
// beside the buffer, so that what is said is of the buffer that the call was lent.)
pub fn open(context: &Context, buf: &mut [u8], n: usize, h: Layout) -> bool
    requires { (n ≤ length buf.old) × (judged_of Way.Receiving context.now.policy (tag_length_of context.now.suite) (take n buf.old) ≡ Ok h) }
    ensures value { result ≡ tag_fits context.now.suite context.now.keys context.now.policy context.now.ssrc context.now.index (take n buf.old) }
    ensures buf_after { buf.new ≡ pick result (opened_of context.now.suite context.now.keys context.now.policy (listed_in context.now.ids) context.now.ssrc context.now.index n buf.old) buf.old }
{
    match context.suite {
        Suite::CmHmac => open_cm(context, buf, n, h),
        Suite::Gcm => open_gcm(context, buf, n, h),
    }
}
