// Numbers of two, four and eight bytes in network byte order, read; and of four and eight, written.
// std's methods, one a width, under the definitions that every crate's specs cite: a trait over the widths would take the number that a value is as a ghost member.
ghost use Rattle.std.specs.Prelude.{◌≡◌};
ghost use Rattle.bits.specs.BigEndian.{from_bytes, to_bytes};

// The number that two bytes are.
pub fn read16(b: [u8; 2]) -> u16
    ensures { result ≡ from_bytes b }
{
    u16::from_be_bytes(b)
}

// The number that four bytes are.
pub fn read32(b: [u8; 4]) -> u32
    ensures { result ≡ from_bytes b }
{
    u32::from_be_bytes(b)
}

// The number that eight bytes are.
pub fn read64(b: [u8; 8]) -> u64
    ensures { result ≡ from_bytes b }
{
    u64::from_be_bytes(b)
}

// The four bytes of a number.
pub fn write32(x: u32) -> [u8; 4]
    ensures { result ≡ to_bytes 4 x }
{
    u32::to_be_bytes(x)
}

// The eight bytes of a number.
pub fn write64(x: u64) -> [u8; 8]
    ensures { result ≡ to_bytes 8 x }
{
    u64::to_be_bytes(x)
}
