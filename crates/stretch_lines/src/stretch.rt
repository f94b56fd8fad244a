// The line `stretch`.
use arrayvec::ArrayVec;
use keystream::call::stretch_call;
use std::fmt;
use std::fmt::{Display, Formatter, Write};
use text::reading::{array, bytes, index, number};
use text_output::output::Hex;

// NO DATA.
#[derive(Drop)]
pub struct Stretch {
    number: u32,
    stretch: ArrayVec<u8, 4096>,
}

impl Display for Stretch {
    fn fmt<W: Write>(&self, f: &mut Formatter<W>) -> fmt::Result {
        let number = self.number;
        let stretch = Hex(&self.stretch);
        write!(f, "{number} {stretch}")
    }
}

// KEY SALT SSRC INDEX START DATA; `None` where the words cannot be read.
pub fn stretch_data(words: &[&[u8]]) -> Option<Stretch> {
    let [key, salt, ssrc, index_word, start, plain] = words else {
        return None;
    };
    let key = array::<16>(key)?;
    let salt = array::<14>(salt)?;
    let ssrc = u32::from_be_bytes(array(ssrc)?);
    let index = index(index_word)?;
    let mut stretch = bytes(plain)?;
    let number = stretch_call(&key, &salt, ssrc, index, number(start)?, &mut stretch);
    Some(Stretch { number, stretch })
}
