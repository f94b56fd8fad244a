// What is encrypted of a packet; and a packet encrypted and decrypted in place under AES_CM_128_HMAC_SHA1_80.
ghost use Rattle.std.specs.Prelude.{◌≡◌, true, ◌≤◌, length};
ghost use Rattle.rtp_header.specs.Header.{layout_of};
ghost use Rattle.suites.specs.declared.suite.Suite.TheVariants.{CmHmac};
ghost use Rattle.rtp_elements.specs.Mask.{listed_in};
ghost use Rattle.packet_cipher.specs.Cipher.{portion_of, cipher_of};
ghost use Rattle.policies.specs.Judging.{elements_fit};

use crate::keys::Keys;
use aes_cm::portion::xor_portion;
use aes_tables::tables::{self, RoundEntries, SboxEntries, Tables};
use bits::portion::Portion;
use element_cipher::elements::crypt_elements;
use policies::policy::Policy;
use rtp_header::header::Layout;

// The places of a portion as any layout has them, in order or not: of layouts that no packet has, too.
#[derive(Clone, Copy)]
pub struct Extent {
    pub first: usize,
    pub stop: usize,
    pub rest: usize,
}

// What the packet's own keystream goes onto.
pub fn encrypted_portion(cryptex: bool, h: Layout) -> Extent
    ensures { (result.first ≡ (portion_of cryptex h).first) × ((result.stop ≡ (portion_of cryptex h).stop) × (result.rest ≡ (portion_of cryptex h).rest)) }
{
    if cryptex {
        Extent {
            first: h.contributors,
            stop: h.extension,
            rest: h.block,
        }
    } else {
        Extent {
            first: h.payload,
            stop: h.payload,
            rest: h.payload,
        }
    }
}

// The same, in the order that a packet's parts have.
pub fn portion(cryptex: bool, h: Layout) -> Portion
    requires { (h.contributors ≤ h.extension) × (h.extension ≤ h.block) }
    ensures { result ≡ portion_of cryptex h }
{
    let extent = encrypted_portion(cryptex, h);
    Portion {
        first: extent.first,
        stop: extent.stop,
        rest: extent.rest,
    }
}

// A packet in the form that it has on the wire, whose layout is h. A policy uses the mask or Cryptex, never both: under the mask the packet's own keystream
// leaves the block of the header extension as it is, and the listed elements have a keystream of their own. Both read the same tables.
// The parameters, and no Context with its bound on the index: the definition has an answer for any index.
pub fn crypt(
    keys: &Keys,
    policy: Policy,
    ids: &[u64; 4],
    ssrc: u32,
    index: u64,
    packet: &mut [u8],
    h: Layout,
)
    requires h_value { (h ≡ layout_of packet.old) × ((h.payload ≤ length packet.old) × (length packet.old ≤ 2048)) }
    requires packet_value { elements_fit policy h packet.old ≡ true }
    ensures { packet.new ≡ cipher_of CmHmac keys.now policy (listed_in ids.now) ssrc index packet.old }
{
    let sbox = tables::sbox();
    let round = tables::round_table();
    let tables = Tables {
        sbox: SboxEntries { bytes: &sbox },
        round: RoundEntries { bytes: &round },
    };
    let r = portion(policy.is_cryptex(h), h);
    xor_portion(tables, keys.cipher, keys.salt, ssrc, index, packet, r);
    if policy.uses_mask() {
        crypt_elements(
            tables,
            keys.header_cipher,
            keys.header_salt,
            ssrc,
            index,
            &mut packet[h.block..h.payload],
            h.tag,
            ids,
        );
    }
}
