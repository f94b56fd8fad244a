// Two fields of the fixed header (RFC 3550, 5.1).
ghost use Rattle.std.specs.Prelude.{◌≡◌, ◌≤◌, length};
ghost use Rattle.rtp_header.specs.Header.{seq_of, ssrc_of};

use bits::big_endian::{read16, read32};

pub fn sequence_number(packet: &[u8]) -> u16
    requires { 12 ≤ length packet.now }
    ensures { result ≡ seq_of packet.now }
{
    read16([packet[2], packet[3]])
}

pub fn ssrc(packet: &[u8]) -> u32
    requires { 12 ≤ length packet.now }
    ensures { result ≡ ssrc_of packet.now }
{
    read32([packet[8], packet[9], packet[10], packet[11]])
}
