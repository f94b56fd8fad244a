// Numbers in a line, whatever stands between them.
use text::reading::number;

// A number by its last nineteen digits, since 64 bits might not hold more; no line has one so long.
fn number_of(digits: &[u8]) -> Option<u64> {
    number(&digits[digits.len().saturating_sub(19)..])
}

// The last number of a text and the one before it, in their order; 0 for each that it lacks.
pub fn last_two(text: &[u8]) -> (u64, u64) {
    let mut numbers = text.rsplit(|b| !b.is_ascii_digit()).filter_map(number_of);
    let last = numbers.next().unwrap_or(0);
    let before = numbers.next().unwrap_or(0);
    (before, last)
}
