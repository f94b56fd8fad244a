// The header of a packet: where its parts begin, or why it cannot be read.
ghost use Rattle.std.specs.Prelude.{◌≡◌, true, false, ◌-◌, ◌/◌, ◌≤◌, eqb, length};
ghost use Rattle.rtp_header.specs.Header.{has_extension, layout_by, bounded_of, header_of, header_number};
ghost use Rattle.rtp_header.specs.Order.{Ordered};

use bits::big_endian::read16;
use bits::refusal::Refusal;

// Where the parts of a packet begin. Without an extension (X = 0) the tag is 0, and block and payload begin after the contributing sources.
// X and the tag stand side by side, as in the definition `layout_of`, which every rule above cites.
#[derive(Clone, Copy, Debug, PartialEq, Eq)]
pub struct Layout {
    pub cc: usize,
    pub x: bool,
    pub tag: u16,
    pub contributors: usize,
    pub extension: usize,
    pub block: usize,
    pub payload: usize,
}

// V = 2, whatever the P bit beside it is.
fn is_version_2(first: u8) -> bool
    ensures { result ≡ eqb (first / 64) 2 }
{
    first / 64 == 2
}

// X = 1: the extension header stands where the layout without it has the payload, and neither it nor its block may pass `end`.
fn read_extension(packet: &[u8], plain: Layout, end: usize) -> Result<Layout, Refusal>
    requires packet_value { has_extension packet.now ≡ true }
    requires plain_value { (plain ≡ layout_by false packet.now) × (end ≤ length packet.now) }
    ensures value { result ≡ bounded_of packet.now end }
    ensures ordered { Ordered end result }
{
    let at = plain.extension;
    let block = at + 4;
    if end < block {
        return Err(Refusal::Header);
    }
    let tag = read16([packet[at], packet[at + 1]]);
    let words = read16([packet[at + 2], packet[at + 3]]);
    let payload = block + 4 * (words as usize);
    if end < payload {
        return Err(Refusal::Header);
    }
    Ok(Layout {
        x: true,
        tag,
        block,
        payload,
        ..plain
    })
}

// The header of a packet whose last `t` bytes are its authentication tag (0 where it has none): the header may not reach into them.
// The second `ensures` follows from the first; callers have it ready.
pub fn read_header(packet: &[u8], t: usize) -> Result<Layout, Refusal>
    ensures value { result ≡ header_of packet.now t }
    ensures ordered { Ordered (length packet.now - t) result }
{
    let n = packet.len();
    if n < t || n - t < 12 {
        return Err(Refusal::Short);
    }
    let end = n - t;
    let first = packet[0];
    if !is_version_2(first) {
        return Err(Refusal::Version);
    }
    let cc = (first % 16) as usize;
    let at = 12 + 4 * cc;
    let plain = Layout {
        cc,
        x: false,
        tag: 0,
        contributors: 12,
        extension: at,
        block: at,
        payload: at,
    };
    if first / 16 % 2 == 1 {
        return read_extension(packet, plain, end);
    }
    if end < at {
        return Err(Refusal::Header);
    }
    Ok(plain)
}

// The number of a reader's answer: 0 where the header was read. (`found_number` is the same of elements: each of the two answers has a definition of its numbers, which contracts cite.)
pub fn header_number(header: Result<Layout, Refusal>) -> u8
    ensures { result ≡ header_number header }
{
    match header {
        Ok(_) => 0,
        Err(refusal) => u8::from(refusal),
    }
}
