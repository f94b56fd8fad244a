// The line `mask`.
ghost use Rattle.std.specs.Prelude.{◌≡◌, ◌≤◌, length};

use arrayvec::ArrayVec;
use bits::refusal::Refusal;
use element_cipher::listed::is_listed;
use making::ids::flags;
use rtp_elements::element::next;
use std::fmt;
use std::fmt::{Display, Formatter, Write};
use text::reading::{array, bytes};
use text_output::output::Hex;

// NO MASK.
#[derive(Drop)]
pub struct Mask {
    covered: Result<ArrayVec<u8, 4096>, Refusal>,
}

impl Display for Mask {
    fn fmt<W: Write>(&self, f: &mut Formatter<W>) -> fmt::Result {
        match &self.covered {
            Ok(mask) => {
                let mask = Hex(mask);
                write!(f, "0 {mask}")
            }
            Err(refusal) => {
                let number = u8::from(*refusal);
                write!(f, "{number} -")
            }
        }
    }
}

// The mask of an extension block, onto zeros: FF on the data of listed elements. A refusal's mask is not shown. The walk goes by places, as the library's
// own, since `next` is told where to go on.
fn cover_listed(block: &[u8], tag: u16, set: [u64; 4], mask: &mut [u8]) -> Result<(), Refusal>
    requires { length mask.old ≡ length block.now }
    ensures { length mask.new ≡ length mask.old }
{
    let mut i: usize = 0;
    while let Some(element) = next(block, tag, i)? {
        let begin = element.begin;
        let end = begin + element.length;
        if is_listed(&set, element.id) {
            mask[begin..end].fill(0xFF);
        }
        i = end;
    }
    Ok(())
}

fn mask_of(block: &[u8], tag: u16, set: [u64; 4]) -> Result<ArrayVec<u8, 4096>, Refusal>
    requires { length block.now ≤ 4096 }
{
    let mut mask = ArrayVec::from([0; 4096]);
    mask.truncate(block.len());
    cover_listed(block, tag, set, &mut mask)?;
    Ok(mask)
}

// TAG BLOCK IDS; `None` where the words cannot be read.
pub fn mask_block(words: &[&[u8]]) -> Option<Mask> {
    let [tag, block, ids] = words else {
        return None;
    };
    let tag = u16::from_be_bytes(array(tag)?);
    let block = bytes::<4096>(block)?;
    let ids = bytes::<1024>(ids)?;
    let covered = mask_of(&block, tag, flags(&ids));
    Some(Mask { covered })
}
