// Whether a policy uses Cryptex or the mask, and which packets are under Cryptex (RFC 9335, 5).
ghost use Rattle.std.specs.Prelude.{◌≡◌};
ghost use Rattle.policies.specs.Cryptex.{adds_block, is_cryptex_tag, is_cryptex};
ghost use Rattle.policies.specs.Policies.{uses_cryptex, uses_mask};

use crate::policy::Policy;
use rtp_header::header::Layout;

impl Policy {
    pub fn uses_cryptex(self) -> bool
        ensures { result ≡ uses_cryptex self }
    {
        matches!(self, Policy::Cryptex | Policy::CryptexRequired)
    }

    pub fn uses_mask(self) -> bool
        ensures { result ≡ uses_mask self }
    {
        matches!(self, Policy::Mask)
    }

    // Cryptex adds an empty block to this packet.
    pub fn adds_block(self, h: Layout) -> bool
        ensures { result ≡ adds_block self h }
    {
        self.uses_cryptex() && !h.x && 0 < h.cc
    }

    // A packet in its wire form is under Cryptex.
    pub fn is_cryptex(self, h: Layout) -> bool
        ensures { result ≡ is_cryptex self h }
    {
        self.uses_cryptex() && h.x && is_cryptex_tag(h.tag)
    }
}

pub fn is_cryptex_tag(tag: u16) -> bool
    ensures { result ≡ is_cryptex_tag tag }
{
    tag == 0xC0DE || tag == 0xC2DE
}
