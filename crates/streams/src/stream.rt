// A packet whose stream and index are known: the cores of protect and unprotect. Each computes, and writes once nothing can be refused any more.
ghost use Rattle.std.specs.Prelude.{◌≡◌, ◌^◌, ◌<◌, ◌≤◌, length, Ok};
ghost use Rattle.memory.specs.Words.{word};
ghost use Rattle.rtp_header.specs.Header.{ssrc_of};
ghost use Rattle.policies.specs.declared.policy.Way.TheVariants.{Sending, Receiving};
ghost use Rattle.session.specs.Answers.{answer_of};
ghost use Rattle.session.specs.Calls.{Gives};
ghost use Rattle.session.specs.Memory.{suite_at, policy_at, setup_at};
ghost use Rattle.front.specs.Opening.{Ready};
ghost use Rattle.streams.specs.Steps.{effect_at, left_by};

use bits::refusal::Refusal;
use front::fields::ssrc;
use front::open::Opened;
use packet::protect::{protect_packet, unprotect_packet};
use packet_cipher::context::Context;
use policies::policy::Way;
use records::tracks::commit;
use rtp_header::header::Layout;
use session::layout::SIZE;
use session::load::{ids_of, keys_of, load_policy, load_suite};

// The cryptographic context of a packet under its index.
fn context_of(session: &[u64; SIZE], packet: &[u8], index: u64) -> Context
    requires { (index < 2 ^ 48) × (12 ≤ length packet.now) }
    ensures suite { result.suite ≡ suite_at (word session.now 0) }
    ensures keys { result.keys ≡ (setup_at session.now).keys }
    ensures policy { result.policy ≡ policy_at (word session.now 0) }
    ensures ids { result.ids ≡ (setup_at session.now).ids }
    ensures ssrc { result.ssrc ≡ ssrc_of packet.now }
    ensures index { result.index ≡ index }
{
    Context {
        suite: load_suite(session[0]),
        keys: keys_of(session),
        policy: load_policy(session[0]),
        ids: ids_of(session),
        ssrc: ssrc(packet),
        index,
    }
}

// The packet protected, whose header was read as this layout, and its index the last one sent; its new length. (Buffer and length as the call lends them.)
pub fn protect_stream(
    session: &mut [u64; SIZE],
    opened: Opened,
    layout: Layout,
    buf: &mut [u8],
    n: usize,
) -> usize
    requires { Ready Sending session.old buf.old n opened.place opened.index layout }
    ensures { Gives (left_by session.old opened.place buf.old (effect_at Sending session.old opened.place buf.old n)) (answer_of (Ok result)) buf.new session.new }
{
    let context = context_of(session, &buf[..n], opened.index);
    let m = protect_packet(&context, buf, n, layout);
    commit(session, opened.place, Way::Sending, opened.index);
    m
}

// Refusal 14, and then the packet unprotected, and its index accepted; its new length.
pub fn unprotect_stream(
    session: &mut [u64; SIZE],
    opened: Opened,
    layout: Layout,
    buf: &mut [u8],
    n: usize,
) -> Result<usize, Refusal>
    requires { Ready Receiving session.old buf.old n opened.place opened.index layout }
    ensures { Gives (left_by session.old opened.place buf.old (effect_at Receiving session.old opened.place buf.old n)) (answer_of result) buf.new session.new }
{
    let context = context_of(session, &buf[..n], opened.index);
    if !unprotect_packet(&context, buf, n, layout) {
        return Err(Refusal::Tag);
    }
    commit(session, opened.place, Way::Receiving, opened.index);
    let t = context.suite.tag_length();
    Ok(n - t)
}
