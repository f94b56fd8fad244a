// Finding an element of a packet: its data as a part of the caller's packet, and the answer beside it.
ghost use Rattle.std.specs.Prelude.{◌≡◌, length};
ghost use Rattle.rtp.specs.Finding.{located_of, find_of, HandedBack};
ghost use Rattle.rtp.specs.Steps.{Inside};

use bits::refusal::Refusal;
use rtp_elements::element::{Element, found_number, next, whole_after};
use rtp_header::header::{header_number, read_header};

// The first element with an id. Where it was found, the rest of the block is walked for its own sake, since an element that runs past the block is refused
// wherever it stands: one walk that also keeps the first match takes half as long again. The walk goes by places, as `next` does.
pub fn locate(block: &[u8], tag: u16, id: u8) -> Result<Element, Refusal>
    ensures value { result ≡ located_of tag block.now id }
    ensures inside { Inside (length block.now) result }
{
    let mut i: usize = 0;
    while i < block.len() {
        let Some(element) = next(block, tag, i)? else {
            break;
        };
        i = element.begin + element.length;
        let matches = element.id == id;
        if matches {
            return if whole_after(block, tag, i) {
                Ok(element)
            } else {
                Err(Refusal::Element)
            };
        }
    }
    Err(Refusal::Absent)
}

// The data of the first element with an id, in a plain packet. A refusal hands back an empty part, as document 01 wants it, so the answer goes beside the part and
// not in a Result.
pub fn find<'a>(packet: &'a [u8], id: u8, answer: &mut u8) -> &'a [u8]
    ensures { HandedBack packet.entry (find_of packet.now id) answer.new result }
{
    let header = read_header(packet, 0);
    let Ok(layout) = header else {
        *answer = header_number(header);
        return &packet[0..0];
    };
    let block = layout.block;
    let payload = layout.payload;
    let found = locate(&packet[block..payload], layout.tag, id);
    let Ok(element) = found else {
        *answer = found_number(found);
        return &packet[0..0];
    };
    *answer = 0;
    let begin = block + element.begin;
    &packet[begin..begin + element.length]
}
