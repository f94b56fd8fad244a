// The IV of a packet (RFC 7714, 8.1).
ghost use Rattle.std.specs.Prelude.{◌≡◌};
ghost use Rattle.gcm_iv.specs.Srtp.{iv_of};

use bits::big_endian::{write32, write64};

// (Written out byte by byte, as the section's figure has it: loops over the SSRC's four and the index's six bytes would each name their place in the salt, and be no shorter.)
pub fn iv(salt: [u8; 12], ssrc: u32, index: u64) -> [u8; 12]
    ensures { result ≡ iv_of salt ssrc index }
{
    let q = write32(ssrc);
    let i = write64(index);
    [
        salt[0],
        salt[1],
        salt[2] ^ q[0],
        salt[3] ^ q[1],
        salt[4] ^ q[2],
        salt[5] ^ q[3],
        salt[6] ^ i[2],
        salt[7] ^ i[3],
        salt[8] ^ i[4],
        salt[9] ^ i[5],
        salt[10] ^ i[6],
        salt[11] ^ i[7],
    ]
}
