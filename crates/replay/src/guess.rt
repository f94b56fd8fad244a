// The index guess of a receiver (RFC 3711, 3.3.1), told as a signed distance from the highest accepted index.
ghost use Rattle.std.specs.Prelude.{◌≡◌};
ghost use Rattle.replay.specs.Guess.{distance_of};

// From s, the low 16 bits of the highest index, to SEQ; a rollover back where the guess is R - 1, and one on where it is R + 1.
pub(crate) fn guess(highest: u64, sequence: u16) -> i32
    ensures { result ≡ distance_of highest sequence }
{
    let s = (highest % 65536) as i32;
    let ahead = i32::from(sequence) - s;
    let back = 32768 < ahead;
    let on = ahead < -32768;
    if back {
        ahead - 65536
    } else if on {
        ahead + 65536
    } else {
        ahead
    }
}
