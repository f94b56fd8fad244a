// An element of a plain packet, for a caller that cannot be lent a part of it, as C: it is told where the part lies.
ghost use Rattle.std.specs.Prelude.{◌≡◌};
ghost use Rattle.srtp.specs.Finding.{find_call, asked_id};

use rtp::find::locate;
use rtp_elements::element::found_number;
use rtp_header::header::{header_number, read_header};

// 0 or the number of a refusal; where in the packet the element's data begins, and how long it is: 0 and 0 with a refusal. Numbers, as C takes them.
#[repr(C)]
#[derive(Clone, Copy)]
pub struct Part {
    pub number: u32,
    pub begin: usize,
    pub length: usize,
}

fn no_part(number: u8) -> Part
    ensures { result ≡ record { number = number; begin = 0; length = 0 } }
{
    Part {
        number: u32::from(number),
        begin: 0,
        length: 0,
    }
}

// An id above 255 is no element's, and neither is 0.
fn asked_id(id: u32) -> u8
    ensures { result ≡ asked_id id }
{
    if 255 < id { 0 } else { id as u8 }
}

// The data of the first element with an id.
pub fn find(packet: &[u8], id: u32) -> Part
    ensures { result ≡ find_call packet.now id }
{
    let header = read_header(packet, 0);
    let Ok(layout) = header else {
        return no_part(header_number(header));
    };
    let block = layout.block;
    let payload = layout.payload;
    let found = locate(&packet[block..payload], layout.tag, asked_id(id));
    let Ok(element) = found else {
        return no_part(found_number(found));
    };
    Part {
        number: 0,
        begin: block + element.begin,
        length: element.length,
    }
}
