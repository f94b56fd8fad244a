// Refusals 2 to 7, for both ways.
ghost use Rattle.std.specs.Prelude.{◌≡◌, ◌≤◌, ◌<◌, length};
ghost use Rattle.policies.specs.Judging.{tail_of, profile_fits, elements_fit, added_of, judged_of};

use crate::policy::{Policy, Way};
use crate::uses::is_cryptex_tag;
use bits::refusal::Refusal;
use rtp_elements::element::whole;
use rtp_header::header::{Layout, read_header};

fn tail(way: Way, t: usize) -> usize
    ensures { result ≡ tail_of way t }
{
    match way {
        Way::Sending => 0,
        Way::Receiving => t,
    }
}

fn sent_profile_fits(policy: Policy, h: Layout) -> bool
    ensures { result ≡ profile_fits Way.Sending policy h }
{
    !(policy.uses_cryptex() && h.x) || h.tag == 0xBEDE || h.tag == 0x1000
}

// Required Cryptex: an extension is encrypted, and contributors never come without one.
fn required_profile_fits(h: Layout) -> bool
    ensures { result ≡ profile_fits Way.Receiving Policy.CryptexRequired h }
{
    if h.x {
        is_cryptex_tag(h.tag)
    } else {
        h.cc == 0
    }
}

fn profile_fits(way: Way, policy: Policy, h: Layout) -> bool
    ensures { result ≡ profile_fits way policy h }
{
    match (way, policy) {
        (Way::Sending, _) => sent_profile_fits(policy, h),
        (Way::Receiving, Policy::CryptexRequired) => required_profile_fits(h),
        (Way::Receiving, _) => true,
    }
}

fn elements_fit(packet: &[u8], policy: Policy, h: Layout) -> bool
    requires { (h.block ≤ h.payload) × (h.payload ≤ length packet.now) }
    ensures { result ≡ elements_fit policy h packet.now }
{
    !policy.uses_mask() || whole(&packet[h.block..h.payload], h.tag)
}

// What protecting adds to the length, with tags of t bytes.
pub fn added(way: Way, policy: Policy, h: Layout, t: usize) -> usize
    requires { t < 256 }
    ensures { (result ≡ added_of way policy t h) × (result ≤ 260) }
{
    match way {
        Way::Sending if policy.adds_block(h) => 4 + t,
        Way::Sending => t,
        Way::Receiving => 0,
    }
}

// The layout of a packet that gets, or has, a tag of t bytes; or the refusal.
pub fn judge(packet: &[u8], way: Way, policy: Policy, t: usize) -> Result<Layout, Refusal>
    requires { t < 256 }
    ensures { result ≡ judged_of way policy t packet.now }
{
    let h = read_header(packet, tail(way, t))?;
    if !profile_fits(way, policy, h) {
        return Err(Refusal::Profile);
    }
    if !elements_fit(packet, policy, h) {
        return Err(Refusal::Element);
    }
    if 2048 - added(way, policy, h, t) < packet.len() {
        return Err(Refusal::Large);
    }
    Ok(h)
}
