// The counter block (RFC 3711, 4.1.1).
ghost use Rattle.std.specs.Prelude.{◌≡◌};
ghost use Rattle.aes_counter.specs.Keystream.{counter_of};

use bits::big_endian::{write32, write64};

// The input of block 0. An index of 2^48 or more is no packet's; its upper bytes meet the SSRC's last two, as the equation in RFC 3711 has it.
// (Written out byte by byte: salt, SSRC and index overlap at places that loops would each have to name.)
pub fn iv(salt: [u8; 14], ssrc: u32, index: u64) -> [u8; 16]
    ensures { result ≡ counter_of salt ssrc index 0 }
{
    let q = write32(ssrc);
    let i = write64(index);
    [
        salt[0],
        salt[1],
        salt[2],
        salt[3],
        salt[4] ^ q[0],
        salt[5] ^ q[1],
        salt[6] ^ q[2] ^ i[0],
        salt[7] ^ q[3] ^ i[1],
        salt[8] ^ i[2],
        salt[9] ^ i[3],
        salt[10] ^ i[4],
        salt[11] ^ i[5],
        salt[12] ^ i[6],
        salt[13] ^ i[7],
        0,
        0,
    ]
}
