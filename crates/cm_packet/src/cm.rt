// A packet under AES_CM_128_HMAC_SHA1_80.
ghost use Rattle.std.specs.Prelude.{◌≡◌, ◌++◌, ◌/◌, ◌^◌, ◌≤◌, length, take, Ok};
ghost use Rattle.bits.specs.BigEndian.{to_bytes};
ghost use Rattle.bits.specs.Pick.{pick};
ghost use Rattle.hmac.specs.Steps.{mac_of};
ghost use Rattle.rtp_elements.specs.Mask.{listed_in};
ghost use Rattle.suites.specs.declared.suite.Suite.TheVariants.{CmHmac};
ghost use Rattle.suites.specs.Suites.{tag_length_of};
ghost use Rattle.policies.specs.Judging.{judged_of};
ghost use Rattle.policies.specs.Shapes.{Shaped};
ghost use Rattle.packet_cipher.specs.Cipher.{cipher_of};
ghost use Rattle.packet_cipher.specs.Tag.{tag_of};
ghost use Rattle.wire.specs.Wire.{tag_fits};
ghost use Rattle.wire.specs.Steps.{opened_of};

use bits::big_endian::write32;
use hmac::mac::mac;
use packet_cipher::cipher::crypt;
use packet_cipher::context::Context;
use policies::policy::Way;
use rtp_header::header::Layout;
use tags::tag::same;

// The code over a packet without its tag and then the rollover counter.
fn code(context: &Context, body: &[u8]) -> [u8; 20]
    requires { length body.now ≤ 2048 }
    ensures { result ≡ mac_of context.now.keys.auth (body.now ++ to_bytes 4 (context.now.index / 2 ^ 16)) }
{
    let rollover = write32((context.index / 65536) as u32);
    mac(context.keys.auth, body, &rollover)
}

// The packet, whose layout is h, encrypted; the code whose first ten bytes are its tag.
pub fn seal_cm(context: &Context, packet: &mut [u8], h: Layout) -> [u8; 20]
    requires { Shaped context.now.policy packet.old (length packet.old) h }
    ensures packet_after { packet.new ≡ cipher_of CmHmac context.now.keys context.now.policy (listed_in context.now.ids) context.now.ssrc context.now.index packet.old }
    ensures result_value { take (tag_length_of CmHmac) result ≡ tag_of CmHmac context.now.keys context.now.policy context.now.ssrc context.now.index packet.new }
{
    crypt(
        &context.keys,
        context.policy,
        &context.ids,
        context.ssrc,
        context.index,
        packet,
        h,
    );
    code(context, packet)
}

// Whether the tag of the packet of n bytes is right; then, and only then, the bytes before it are decrypted. (The buffer is lent whole, as the calls have it.)
pub fn open_cm(context: &Context, buf: &mut [u8], n: usize, h: Layout) -> bool
    requires { (n ≤ length buf.old) × (judged_of Way.Receiving context.now.policy (tag_length_of CmHmac) (take n buf.old) ≡ Ok h) }
    ensures value { result ≡ tag_fits CmHmac context.now.keys context.now.policy context.now.ssrc context.now.index (take n buf.old) }
    ensures buf_after { buf.new ≡ pick result (opened_of CmHmac context.now.keys context.now.policy (listed_in context.now.ids) context.now.ssrc context.now.index n buf.old) buf.old }
{
    let m = n - 10;
    let c = code(context, &buf[0..m]);
    if !same(&c[0..10], &buf[m..n]) {
        return false;
    }
    crypt(
        &context.keys,
        context.policy,
        &context.ids,
        context.ssrc,
        context.index,
        &mut buf[0..m],
        h,
    );
    true
}
