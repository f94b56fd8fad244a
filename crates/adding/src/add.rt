// A stream added to the session in the memory that is lent.
ghost use Rattle.std.specs.Prelude.{◌≡◌, ℕ, true, false, ◌<◌, ◌≤◌, Some, MatchOption, MatchResult};
ghost use Rattle.bits.specs.Refusals.{number_of};
ghost use Rattle.memory.specs.Words.{word};
ghost use Rattle.session.specs.Calls.{way_of, Leaves, add_call};
ghost use Rattle.session.specs.Memory.{record_words, is_mark, decode};
ghost use Rattle.session.specs.Places.{free_from};
ghost use Rattle.session.specs.Records.{fresh_record, has_ssrc};

use bits::refusal::{Border, Refusal};
use policies::policy::Way;
use records::places::{free_place, has_ssrc, head_word};
use records::tracks::record_place;
use session::layout::{EACH, ROLLOVER, SIZE};
use session::load::is_made;

// 0 sends, and 1 receives. (Only here is a way passed as a number, so `Way` has no `TryFrom`.)
fn way_of(way: u32) -> Option<Way>
    ensures { MatchOption result (1 < way) (λ w. (way ≤ 1) × (w ≡ way_of way)) }
{
    match way {
        0 => Some(Way::Sending),
        1 => Some(Way::Receiving),
        _ => None,
    }
}

// The record of a stream that has had no packet: its replay state is zeros.
fn fresh_record(ssrc: u32, way: Way, rollover: u32) -> [u64; EACH]
    ensures { result ≡ record_words (fresh_record ssrc way rollover) }
{
    let mut words = [0u64; EACH];
    words[0] = head_word(ssrc, way);
    words[ROLLOVER] = u64::from(rollover);
    words
}

// Where a stream can be added, or the refusal.
fn place_for(session: &[u64; SIZE], ssrc: u32) -> Result<usize, Refusal>
    ensures { MatchResult result (λ i. (i < 32) × (is_mark (word session.now 0) ≡ true) × (has_ssrc (decode session.now).records ssrc ≡ false) × (free_from 0 (decode session.now).records ≡ Some i)) (λ r. (way rollover : ℕ) → way ≤ 1 → Leaves (add_call session.now ssrc way rollover) (number_of r) session.now) }
{
    if !is_made(session[0]) {
        return Err(Refusal::Keys);
    }
    if has_ssrc(session, ssrc) {
        return Err(Refusal::Twice);
    }
    free_place(session).ok_or(Refusal::Full)
}

// A stream to send (way 0) or to receive (way 1), whose first packet has the starting rollover. A refusal changes nothing. (Way and what is given back are numbers, as C passes and takes
// them.)
pub fn add(session: &mut [u64], ssrc: u32, way: u32, rollover: u32) -> u32
    ensures { Leaves (add_call session.old ssrc way rollover) result session.new }
{
    let Some(session) = session.as_mut_array::<SIZE>() else {
        return u32::from(Border::Memory);
    };
    let Some(way) = way_of(way) else {
        return u32::from(Border::Way);
    };
    match place_for(session, ssrc) {
        Ok(i) => {
            let at = record_place(i);
            session[at..at + EACH].copy_from_slice(&fresh_record(ssrc, way, rollover));
            0
        }
        Err(refusal) => u32::from(refusal),
    }
}
