// A packet under AEAD_AES_128_GCM.
ghost use Rattle.std.specs.Prelude.{◌≡◌, Bool, ℕ, ◌≤◌, length, take, Ok};
ghost use Rattle.bits.specs.Pick.{pick};
ghost use Rattle.suites.specs.declared.suite.Suite.TheVariants.{Gcm};
ghost use Rattle.suites.specs.Suites.{tag_length_of};
ghost use Rattle.policies.specs.Judging.{judged_of};
ghost use Rattle.policies.specs.Shapes.{Shaped};
ghost use Rattle.packet_cipher.specs.Cipher.{packet_iv, cipher_of};
ghost use Rattle.packet_cipher.specs.Tag.{tag_of};
ghost use Rattle.wire.specs.Wire.{tag_fits};
ghost use Rattle.wire.specs.Steps.{opened_of};

use bits::arrays::array;
use gcm::gctr::crypt;
use gcm::tag::tag;
use gcm_iv::iv::iv;
use packet_cipher::cipher::portion;
use packet_cipher::context::Context;
use policies::policy::Way;
use rtp_header::header::Layout;
use tags::tag::same;

// The IV of a packet, whose salt is the first twelve bytes.
fn packet_iv(context: &Context) -> [u8; 12]
    ensures { result ≡ packet_iv context.now.keys context.now.ssrc context.now.index }
{
    iv(array(&context.keys.salt[..12]), context.ssrc, context.index)
}

// The packet, whose layout is h, encrypted; its tag.
pub fn seal_gcm(context: &Context, packet: &mut [u8], h: Layout) -> [u8; 16]
    requires { Shaped context.now.policy packet.old (length packet.old) h }
    ensures by_index { (listed : ℕ → Bool) → packet.new ≡ cipher_of Gcm context.now.keys context.now.policy listed context.now.ssrc context.now.index packet.old }
    ensures value { result ≡ tag_of Gcm context.now.keys context.now.policy context.now.ssrc context.now.index packet.new }
{
    let key = context.keys.cipher;
    let hash = context.keys.hash;
    let r = portion(context.policy.is_cryptex(h), h);
    let nonce = packet_iv(context);
    crypt(key, nonce, packet, r);
    tag(key, hash, nonce, packet, r)
}

// Whether the tag of the packet of n bytes is right; then, and only then, the bytes before it are decrypted. (n beside the buffer, as in `packet_seal`.)
pub fn open_gcm(context: &Context, buf: &mut [u8], n: usize, h: Layout) -> bool
    requires { (n ≤ length buf.old) × (judged_of Way.Receiving context.now.policy (tag_length_of Gcm) (take n buf.old) ≡ Ok h) }
    ensures value { result ≡ tag_fits Gcm context.now.keys context.now.policy context.now.ssrc context.now.index (take n buf.old) }
    ensures by_index { (listed : ℕ → Bool) → buf.new ≡ pick result (opened_of Gcm context.now.keys context.now.policy listed context.now.ssrc context.now.index n buf.old) buf.old }
{
    let key = context.keys.cipher;
    let hash = context.keys.hash;
    let r = portion(context.policy.is_cryptex(h), h);
    let nonce = packet_iv(context);
    let m = n - 16;
    let made = tag(key, hash, nonce, &buf[0..m], r);
    let differs = !same(&made, &buf[m..n]);
    if differs {
        return false;
    }
    crypt(key, nonce, &mut buf[0..m], r);
    true
}
