// A packet protected in its buffer.
ghost use Rattle.session.specs.Calls.{Gives, protect_call};

use crate::answer::{at_border, unopened};
use front::open::open;
use policies::policy::Way;
use session::answer::Answer;
use session::layout::SIZE;
use streams::stream::protect_stream;

// The packet of n bytes at the start of the buffer becomes the protected one, whose length is given back; the bytes after it stay, and of the session
// only the stream's replay state changes. Refusals 1 to 11, and 100 for memory of another size, change nothing. (Buffer and length stand
// side by side, as C lends them.)
pub fn protect(session: &mut [u64], buf: &mut [u8], n: usize) -> Answer
    ensures { Gives (protect_call session.old buf.old n) result buf.new session.new }
{
    let opened = match open(session, buf, n, Way::Sending) {
        Ok(opened) => opened,
        Err(border) => return at_border(border),
    };
    let header = opened.header;
    let Ok(layout) = header else {
        return unopened(header);
    };
    // The front found the memory's size.
    let session = session.as_mut_array::<SIZE>().unwrap();
    Answer::from(Ok(protect_stream(session, opened, layout, buf, n)))
}
