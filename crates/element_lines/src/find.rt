// The line `find`.
use arrayvec::ArrayVec;
use rtp::find::find;
use std::fmt;
use std::fmt::{Display, Formatter, Write};
use text::reading::{bytes, number};
use text_output::output::Hex;

// NO BEGIN DATA; NO is what `rtp::find::find` puts beside the part.
#[derive(Drop)]
pub struct Element {
    number: u8,
    begin: usize,
    part: ArrayVec<u8, 4096>,
}

impl Display for Element {
    fn fmt<W: Write>(&self, f: &mut Formatter<W>) -> fmt::Result {
        let number = self.number;
        let begin = self.begin;
        let part = Hex(&self.part);
        write!(f, "{number} {begin} {part}")
    }
}

// Where the first element with an id begins in a packet, as C is told it; 0 for an empty one and for none. Both ways to find are called, since both are
// compared by what is written.
fn begin(packet: &[u8], id: u8) -> usize {
    let part = srtp::find::find(packet, u32::from(id));
    if part.length == 0 { 0 } else { part.begin }
}

// ID PACKET; `None` where the words cannot be read.
pub fn find_element(words: &[&[u8]]) -> Option<Element> {
    let [id, packet] = words else {
        return None;
    };
    let id = number(id)?;
    let packet = bytes::<4096>(packet)?;
    let mut number = 0;
    // What is found fits, since it is a part of the packet.
    let part = ArrayVec::try_from(find(&packet, id, &mut number)).ok()?;
    let begin = begin(&packet, id);
    Some(Element {
        number,
        begin,
        part,
    })
}
