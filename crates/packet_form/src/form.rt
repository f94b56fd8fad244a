// A packet into the form that it has on the wire, before it is encrypted, and out of it once it is decrypted.
ghost use Rattle.std.specs.Prelude.{◌≡◌, ◌&&◌, ◌++◌, ◌+◌, ◌≤◌, length, take, drop};
ghost use Rattle.bits.specs.Pick.{pick};
ghost use Rattle.rtp_header.specs.Header.{layout_of};
ghost use Rattle.policies.specs.Cryptex.{adds_block, tagged_of, untagged_of};
ghost use Rattle.policies.specs.Policies.{uses_cryptex};
ghost use Rattle.policies.specs.Shapes.{Sendable, Shaped};
ghost use Rattle.wire.specs.Wire.{given_back_of};

use cryptex::block::add_block;
use cryptex::tag::{cryptex_tag, plain_tag, write_tag};
use policies::policy::Policy;
use rtp_header::header::Layout;

fn sends_cryptex(policy: Policy, h: Layout) -> bool
    ensures { result ≡ (uses_cryptex policy && h.x) }
{
    policy.uses_cryptex() && h.x
}

// A packet's new length and its layout.
#[derive(Clone, Copy)]
pub struct Formed {
    pub length: usize,
    pub layout: Layout,
}

// The packet of n bytes at the start of the buffer, with the empty block where Cryptex adds one. The bytes after it stay, so the buffer is lent whole and n beside it.
fn raise(policy: Policy, buf: &mut [u8], n: usize, h: Layout) -> Formed
    requires n_in_bounds { (n ≤ length buf.old) × Sendable policy (take n buf.old) h }
    requires h_in_bounds { n + pick (adds_block policy h) 4 0 ≤ length buf.old }
    ensures length_value { result.length ≡ n + pick (adds_block policy h) 4 0 }
    ensures buf_after { buf.new ≡ given_back_of policy (take n buf.old) ++ drop result.length buf.old }
    ensures shaped { Shaped policy (given_back_of policy (take n buf.old)) result.length result.layout }
{
    if policy.adds_block(h) {
        let at = h.extension;
        add_block(buf, at, n);
        let g = Layout {
            x: true,
            tag: 0xBEDE,
            block: at + 4,
            payload: at + 4,
            ..h
        };
        return Formed {
            length: n + 4,
            layout: g,
        };
    }
    Formed {
        length: n,
        layout: h,
    }
}

// The tag that says Cryptex, where there is one to write; the layout with it.
fn say_cryptex(policy: Policy, packet: &mut [u8], h: Layout) -> Layout
    requires { Shaped policy packet.old (length packet.old) h }
    ensures packet_after { packet.new ≡ tagged_of policy packet.old }
    ensures shaped { Shaped policy (tagged_of policy packet.old) (length packet.old) result }
{
    if sends_cryptex(policy, h) {
        let at = h.extension;
        let tag = cryptex_tag(h.tag);
        write_tag(packet, at, tag);
        return Layout { tag, ..h };
    }
    h
}

// The packet of n bytes at the start of the buffer into the form that is encrypted and sent. The bytes after it stay (n as above).
pub fn to_wire(policy: Policy, buf: &mut [u8], n: usize, h: Layout) -> Formed
    requires n_in_bounds { (n ≤ length buf.old) × Sendable policy (take n buf.old) h }
    requires h_in_bounds { n + pick (adds_block policy h) 4 0 ≤ length buf.old }
    ensures length_value { result.length ≡ n + pick (adds_block policy h) 4 0 }
    ensures buf_after { buf.new ≡ tagged_of policy (given_back_of policy (take n buf.old)) ++ drop result.length buf.old }
    ensures shaped { Shaped policy (tagged_of policy (given_back_of policy (take n buf.old))) result.length result.layout }
{
    let raised = raise(policy, buf, n, h);
    let m = raised.length;
    let g = say_cryptex(policy, &mut buf[0..m], raised.layout);
    Formed {
        length: m,
        layout: g,
    }
}

// A decrypted packet, whose layout is h, out of that form: the plain tag.
pub fn from_wire(policy: Policy, packet: &mut [u8], h: Layout)
    requires { (h ≡ layout_of packet.old) × (h.payload ≤ length packet.old) }
    ensures { packet.new ≡ untagged_of policy packet.old }
{
    if policy.is_cryptex(h) {
        let at = h.extension;
        let tag = plain_tag(h.tag);
        write_tag(packet, at, tag);
    }
}
