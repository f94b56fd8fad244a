// What a packet call gives back where its front refused.
ghost use Rattle.std.specs.Prelude.{◌≡◌};
ghost use Rattle.bits.specs.Refusals.{border_number_of};
ghost use Rattle.rtp_header.specs.Header.{header_number};

use bits::refusal::{Border, Refusal};
use rtp_header::header::{Layout, header_number};
use session::answer::Answer;

// By the header reader's answer, which also holds the front's own refusals.
pub(crate) fn unopened(header: Result<Layout, Refusal>) -> Answer
    ensures { result ≡ record { number = header_number header; length = 0 } }
{
    Answer {
        number: u32::from(header_number(header)),
        length: 0,
    }
}

pub(crate) fn at_border(border: Border) -> Answer
    ensures { result ≡ record { number = border_number_of border; length = 0 } }
{
    Answer {
        number: u32::from(border),
        length: 0,
    }
}
