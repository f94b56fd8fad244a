// The records in a session's memory: where a stream's record stands, and where one can be added.
ghost use Rattle.std.specs.Prelude.{◌≡◌, ℕ, true, false, not, ◌&&◌, ◌/◌, ◌%◌, ◌^◌, ◌+◌, ◌*◌, ◌<◌, eqb, MatchOption};
ghost use Rattle.session.specs.Records.{kind_of, is_free, has_ssrc};
ghost use Rattle.session.specs.Places.{Inside, place_from, free_from};
ghost use Rattle.session.specs.Memory.{is_mark, kind_at, head_word, decode, record_place};
ghost use Rattle.memory.specs.Words.{word};

use policies::policy::Way;
use session::layout::{EACH, FRONT, RECORDS, SIZE};
use session::load::is_made;

// The first word of the record for an SSRC and a way: 1 or 2 in its upper half, as records lie in lent memory; anything else there is a free place.
pub fn head_word(ssrc: u32, way: Way) -> u64
    ensures { result ≡ head_word (kind_of way) ssrc }
{
    let kind: u64 = match way {
        Way::Sending => 1,
        Way::Receiving => 2,
    };
    (kind << 32) + u64::from(ssrc)
}

// The place of the first record whose first word passes a test.
// A `for`, since what `find` on a range says of a test that is a parameter does not reach the contract.
fn first_place<F: Fn(u64) -> bool>(session: &[u64; SIZE], test: F) -> Option<usize>
    requires { F.IsAlwaysCallable test }
    ensures { MatchOption result ((k : ℕ) → k < 32 → F.post test (word session.now (record_place k)) false) (λ i. (i < 32) × F.post test (word session.now (record_place i)) true × ((k : ℕ) → k < i → F.post test (word session.now (record_place k)) false)) }
{
    for i in 0..RECORDS {
        if test(session[FRONT + EACH * i]) {
            return Some(i);
        }
    }
    None
}

// The place of the record for this SSRC and this way: one word of each record tells.
pub fn place_of(session: &[u64; SIZE], ssrc: u32, way: Way) -> Option<usize>
    ensures value { result ≡ place_from 0 (decode session.now).records ssrc way }
    ensures inside { Inside result }
{
    if !is_made(session[0]) {
        return None;
    }
    let head = head_word(ssrc, way);
    first_place(session, |word| word == head)
}

fn is_free(head: u64) -> bool
    ensures { result ≡ is_free (kind_at (head / 2 ^ 32)) }
{
    !matches!(head >> 32, 1 | 2)
}

// The first free place of a made session.
pub fn free_place(session: &[u64; SIZE]) -> Option<usize>
    requires { is_mark (word session.now 0) ≡ true }
    ensures value { result ≡ free_from 0 (decode session.now).records }
    ensures inside { Inside result }
{
    first_place(session, is_free)
}

fn is_of(head: u64, ssrc: u32) -> bool
    ensures { result ≡ (not (is_free (kind_at (head / 2 ^ 32))) && eqb (head % 2 ^ 32) ssrc) }
{
    !is_free(head) && head % (1 << 32) == u64::from(ssrc)
}

// This SSRC has a record in a made session, either way.
pub fn has_ssrc(session: &[u64; SIZE], ssrc: u32) -> bool
    requires { is_mark (word session.now 0) ≡ true }
    ensures { result ≡ has_ssrc (decode session.now).records ssrc }
{
    first_place(session, |head| is_of(head, ssrc)).is_some()
}
