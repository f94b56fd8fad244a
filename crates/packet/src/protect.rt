// Protecting and unprotecting one packet in its buffer. The form is made first and the cipher called in one place: so the keys are laid out once.
ghost use Rattle.std.specs.Prelude.{◌≡◌, ◌++◌, ◌+◌, ◌-◌, ◌≤◌, length, take, drop, Ok};
ghost use Rattle.bits.specs.Pick.{pick};
ghost use Rattle.rtp_elements.specs.Mask.{listed_in};
ghost use Rattle.suites.specs.Suites.{tag_length_of};
ghost use Rattle.policies.specs.Judging.{added_of, judged_of};
ghost use Rattle.wire.specs.Wire.{wire_of, restore_of, tag_fits};

use packet_cipher::context::Context;
use packet_form::form::{from_wire, to_wire};
use packet_seal::seal::{open, seal};
use policies::policy::Way;
use rtp_header::header::Layout;

// The packet of n bytes at the start of the buffer, whose layout is h, becomes the protected one; its length. The bytes after it stay: the buffer is lent whole, with room
// for block and tag, and n beside it.
pub fn protect_packet(context: &Context, buf: &mut [u8], n: usize, h: Layout) -> usize
    requires n_in_bounds { (n ≤ length buf.old) × (judged_of Way.Sending context.now.policy (tag_length_of context.now.suite) (take n buf.old) ≡ Ok h) }
    requires h_in_bounds { n + added_of Way.Sending context.now.policy (tag_length_of context.now.suite) h ≤ length buf.old }
    ensures value { result ≡ n + added_of Way.Sending context.now.policy (tag_length_of context.now.suite) h }
    ensures buf_after { buf.new ≡ wire_of context.now.suite context.now.keys context.now.policy (listed_in context.now.ids) context.now.ssrc context.now.index (take n buf.old) ++ drop result buf.old }
{
    let formed = to_wire(context.policy, buf, n, h);
    let m = formed.length;
    let code = seal(context, &mut buf[0..m], formed.layout);
    let t = context.suite.tag_length();
    let end = m + t;
    buf[m..end].copy_from_slice(&code[..t]);
    end
}

// The protected packet of n bytes at the start of the buffer, whose layout is h. Where its tag is wrong, nothing is written. Otherwise the bytes before the tag
// become the packet that is given back. The tag and what follows it stay. (n beside the buffer, so that what is said is of the
// buffer that the call was lent.)
pub fn unprotect_packet(context: &Context, buf: &mut [u8], n: usize, h: Layout) -> bool
    requires { (n ≤ length buf.old) × (judged_of Way.Receiving context.now.policy (tag_length_of context.now.suite) (take n buf.old) ≡ Ok h) }
    ensures value { result ≡ tag_fits context.now.suite context.now.keys context.now.policy context.now.ssrc context.now.index (take n buf.old) }
    ensures buf_after { buf.new ≡ pick result (restore_of context.now.suite context.now.keys context.now.policy (listed_in context.now.ids) context.now.ssrc context.now.index (take n buf.old) ++ drop (n - tag_length_of context.now.suite) buf.old) buf.old }
{
    if !open(context, buf, n, h) {
        return false;
    }
    let m = n - context.suite.tag_length();
    from_wire(context.policy, &mut buf[0..m], h);
    true
}
