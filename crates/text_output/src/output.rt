// What stands in a line of output: bytes, and lists.
ghost use Rattle.std.specs.Iterator.{IsFinite};

use std::fmt;
use std::fmt::{Display, Formatter, Write};

// Bytes in hex; `-` where there are none.
#[derive(Clone, Copy)]
pub struct Hex<'a>(pub &'a [u8]);

impl Display for Hex<'_> {
    fn fmt<W: Write>(&self, f: &mut Formatter<W>) -> fmt::Result {
        if self.0.is_empty() {
            return f.write_str("-");
        }
        // Eight bytes are formatted as one number, in a fifth of the instructions.
        let (eights, rest) = self.0.as_chunks::<8>();
        for eight in eights {
            let number = u64::from_be_bytes(*eight);
            write!(f, "{number:016x}")?;
        }
        for b in rest {
            write!(f, "{b:02x}")?;
        }
        Ok(())
    }
}

// The items of a list with this between them; `-` where there are none.
pub fn write_list<W: Write, I: Iterator>(
    f: &mut Formatter<W>,
    items: I,
    between: &str,
) -> fmt::Result
where
    I: Drop,
    I::Item: Display + Drop,
    requires can { I.can_next items }
    requires ends { IsFinite (I.remaining items) }
{
    let mut is_first = true;
    for item in items {
        if !is_first {
            f.write_str(between)?;
        }
        write!(f, "{item}")?;
        is_first = false;
    }
    if is_first {
        return f.write_str("-");
    }
    Ok(())
}
