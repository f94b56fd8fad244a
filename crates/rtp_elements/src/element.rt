// The elements of a header extension's block, one after another: the one walk behind everything that reads them.
ghost use Rattle.std.specs.Prelude.{◌≡◌, true, false, [], ◌∷◌, ◌≤◌, ◌<◌, length, get_or, drop};
ghost use Rattle.rtp_elements.specs.Elements.{Length, Between, two_byte, has_elements, start_of, whole_from, whole_of, begun_of};
ghost use Rattle.rtp_elements.specs.Numbers.{found_number};
ghost use Rattle.rtp_elements.specs.Next.{next_by, next_of};

use bits::refusal::Refusal;

// An element: its id, where in the block its data begins, and the data's length.
#[derive(Clone, Copy, Debug, PartialEq, Eq)]
pub struct Element {
    pub id: u8,
    pub begin: usize,
    pub length: usize,
}

fn two_byte(tag: u16) -> bool
    ensures { result ≡ two_byte tag }
{
    0x1000 <= tag && tag <= 0x100F
}

fn has_elements(tag: u16) -> bool
    ensures { result ≡ has_elements tag }
{
    tag == 0xBEDE || two_byte(tag)
}

// The element, if it ends within `size` bytes.
fn fitted(element: Element, size: usize) -> Result<Option<Element>, Refusal>
    requires { element.begin ≤ size }
    ensures { result ≡ next_by size true (element ∷ []) }
{
    if element.length <= size - element.begin {
        Ok(Some(element))
    } else {
        Err(Refusal::Element)
    }
}

// The element with the one-byte header x at place i. RFC 8285 has two formats of header (4.2 and 4.3), so there are two readers: they share `fitted`.
fn one_byte_element(x: u8, i: usize, size: usize) -> Result<Option<Element>, Refusal>
    requires { i < size }
    ensures { result ≡ next_by size true (begun_of false Between i x) }
{
    let id = x / 16;
    if id == 0 || id == 15 {
        return Ok(None);
    }
    let element = Element {
        id,
        begin: i + 1,
        length: (x % 16) as usize + 1,
    };
    fitted(element, size)
}

// The element with the length n at place i, after its id.
fn two_byte_element(id: u8, n: u8, i: usize, size: usize) -> Result<Option<Element>, Refusal>
    requires { i < size }
    ensures { result ≡ next_by size true (begun_of true (Length id) i n) }
{
    let element = Element {
        id,
        begin: i + 1,
        length: n as usize,
    };
    fitted(element, size)
}

// What stands at place i, where no padding does.
fn element_at(block: &[u8], tag: u16, i: usize) -> Result<Option<Element>, Refusal>
    requires { (has_elements tag ≡ true) × ((i < length block.now) × (get_or block.now i 0 ≡ 0 → ⊥)) }
    ensures { result ≡ next_of tag block.now i }
{
    let size = block.len();
    if two_byte(tag) {
        if i + 1 == size {
            return Err(Refusal::Element);
        }
        return two_byte_element(block[i], block[i + 1], i + 1, size);
    }
    one_byte_element(block[i], i, size)
}

// The next element from a place on, which is the block's start or the end of an element; ELEMENT where one runs past the block.
// No iterator that borrows the block: whoever encrypts elements writes into it between two steps.
pub fn next(block: &[u8], tag: u16, from: usize) -> Result<Option<Element>, Refusal>
    ensures { result ≡ next_of tag block.now from }
{
    if has_elements(tag) {
        for i in from..block.len() {
            if block[i] != 0 {
                return element_at(block, tag, i);
            }
        }
    }
    Ok(None)
}

// No element runs past the block, from a place on, which is the block's start or the end of an element. (By places, as `next` goes.)
pub fn whole_after(block: &[u8], tag: u16, from: usize) -> bool
    ensures { result ≡ whole_from (two_byte tag) (start_of tag) (drop from block.now) }
{
    let mut i = from;
    loop {
        match next(block, tag, i) {
            Ok(Some(element)) => i = element.begin + element.length,
            Ok(None) => return true,
            Err(_) => return false,
        }
    }
}

// No element runs past the block.
pub fn whole(block: &[u8], tag: u16) -> bool
    ensures { result ≡ whole_of tag block.now }
{
    whole_after(block, tag, 0)
}

// Document 01's number for what was found.
pub fn found_number(found: Result<Element, Refusal>) -> u8
    ensures { result ≡ found_number found }
{
    match found {
        Ok(_) => 0,
        Err(refusal) => u8::from(refusal),
    }
}
