// An index: 48 bits, of which the low 16 are the packet's sequence number and the rest the rollover counter.
ghost use Rattle.std.specs.Prelude.{◌≡◌, ◌+◌, ◌*◌};

// 2^48: the first number that is no index.
pub const LIMIT: u64 = 1 << 48;

// The index of a stream's first packet.
pub(crate) fn first_index(rollover: u32, sequence: u16) -> u64
    ensures { result ≡ rollover * 65536 + sequence }
{
    (u64::from(rollover) << 16) + u64::from(sequence)
}
