// The lines `protect` and `unprotect`.
use crate::output::Output;
use session::answer::Answer;
use std::fmt::{Display, Formatter, Write};
use std::{fmt, io};
use text::reading::{bytes, number};
use text_output::output::Hex;

// NO LENGTH BUFFER: the buffer is written whole, as the call left it.
#[derive(Clone, Copy)]
struct Packet<'a> {
    answer: Answer,
    buffer: Hex<'a>,
}

impl Display for Packet<'_> {
    fn fmt<W: Write>(&self, f: &mut Formatter<W>) -> fmt::Result {
        let Answer { number, length } = self.answer;
        let buffer = self.buffer;
        write!(f, "{number} {length} {buffer}")
    }
}

// N BUFFER, for `protect` or `unprotect`. The buffer stays where it was read, in a frame of its own: each place that it moved to would be cleared and written.
#[inline(never)]
pub fn packet_call<F, R: Print>(
    output: &mut Output<R>,
    call: F,
    session: &mut [u64],
    words: &[&[u8]],
) -> io::Result<()>
where
    F: FnOnce(&mut [u64], &mut [u8], usize) -> Answer,
    requires { F.IsAlwaysCallable call }
{
    let [n, buffer] = words else {
        return output.unreadable();
    };
    let Some(n) = number(n) else {
        return output.unreadable();
    };
    let mut buffer = bytes::<4096>(buffer);
    let Some(buffer) = &mut buffer else {
        return output.unreadable();
    };
    let answer = call(session, buffer, n);
    let buffer = Hex(buffer);
    output.reply(&Some(Packet { answer, buffer }))
}
