// The set of ids that a session keeps, as four words.
ghost use Rattle.std.specs.Prelude.{◌≡◌};
ghost use Rattle.rtp_elements.specs.Mask.{listed_in};

// Bit id % 64 of word id / 64. (Words and no set of the library's: they lie so in the memory of a session, which has a fixed size.)
pub fn is_listed(listed: &[u64; 4], id: u8) -> bool
    ensures { result ≡ listed_in listed.now id }
{
    let n = id as usize;
    let k = (id % 64) as u64;
    (listed[n / 64] >> k) % 2 == 1
}
