// The tag of a header extension, plain and under Cryptex. Two functions and no one for both ways: each has its own table in RFC 9335 (5.1 and 5.2), and the two
// are no inverses on other tags.
ghost use Rattle.std.specs.Prelude.{◌≡◌, ◌+◌, ◌<◌, length};
ghost use Rattle.policies.specs.Cryptex.{cryptex_tag, plain_tag, written16};

pub fn cryptex_tag(tag: u16) -> u16
    ensures { result ≡ cryptex_tag tag }
{
    match tag {
        0xBEDE => 0xC0DE,
        _ => 0xC2DE,
    }
}

pub fn plain_tag(tag: u16) -> u16
    ensures { result ≡ plain_tag tag }
{
    match tag {
        0xC0DE => 0xBEDE,
        _ => 0x1000,
    }
}

pub fn write_tag(packet: &mut [u8], at: usize, tag: u16)
    requires { at + 1 < length packet.old }
    ensures { packet.new ≡ written16 packet.old at tag }
{
    // as `written16` has it: by to_be_bytes and copy_from_slice each byte would have to be shown to be the quotient and the rest
    packet[at] = (tag / 256) as u8;
    packet[at + 1] = (tag % 256) as u8;
}
