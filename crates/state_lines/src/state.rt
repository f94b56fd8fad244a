// The line `state`: what a session's memory holds.
ghost use Rattle.std.specs.Prelude.{◌≡◌, ◌≤◌, length};
ghost use Rattle.session.specs.Memory.{each};

use arrayvec::ArrayVec;
use itoa::Buffer;
use policies::policy::Way;
use replay::ring::seen;
use session::layout::{EACH, FRONT, REPLAY, REPLAY_END, SIZE};
use session::load::{is_made, load_policy, low};
use std::fmt::{Display, Formatter, Write};
use std::{fmt, str};
use text_output::output::write_list;

// SSRC:WAY:HIGHEST:SEEN, as the words of a record show it.
#[derive(Clone, Copy)]
struct Record<'a> {
    ssrc: u32,
    way: Way,
    // Started, highest, and the ring.
    track: &'a [u64],
    ghost whole: { 4 ≤ length track.now },
}

impl<'a> Record<'a> {
    // `None` for a free place. (The numbers are those that `records::places::head_word` writes.)
    fn in_words(words: &'a [u64]) -> Option<Record<'a>>
        requires { length words.now ≡ each }
    {
        let way = match words[0] >> 32 {
            1 => Way::Sending,
            2 => Way::Receiving,
            _ => return None,
        };
        Some(Record {
            ssrc: low(words[0]),
            way,
            track: &words[REPLAY..REPLAY_END],
        })
    }
}

// What stands of a record, put together before it is written: a formatter that is called for each part takes twice the instructions. There is room for all:
// eight digits, a way, twenty digits, and 64 numbers below 100.
type Text = ArrayVec<u8, 256>;

fn put(text: &mut Text, bytes: &[u8]) {
    let _ = text.try_extend_from_slice(bytes);
}

fn put_hex(text: &mut Text, bytes: &[u8]) {
    for b in bytes {
        let high = b"0123456789abcdef"[(*b / 16) as usize];
        let low = b"0123456789abcdef"[(*b % 16) as usize];
        put(text, &[high, low]);
    }
}

fn put_decimal(text: &mut Text, n: u64) {
    let mut digits = Buffer::new();
    put(text, digits.format(n).as_bytes());
}

// A number below 100, behind a comma where it is not the first.
fn put_distance(text: &mut Text, is_first: bool, distance: u64) {
    if !is_first {
        let _ = text.try_push(b',');
    }
    if distance > 9 {
        let _ = text.try_push(b'0' + (distance / 10 % 10) as u8);
    }
    let _ = text.try_push(b'0' + (distance % 10) as u8);
}

// The accepted indices less than 64 behind the highest, as distances below it; `-` for none. The ring has every one of them.
fn put_seen(text: &mut Text, ring: &[u64], highest: u64)
    requires { 2 ≤ length ring.now }
{
    let mut is_first = true;
    for distance in 0..=highest.min(63) {
        if seen(ring, highest - distance) {
            put_distance(text, is_first, distance);
            is_first = false;
        }
    }
    if is_first {
        put(text, b"-");
    }
}

impl Record<'_> {
    fn put_in(&self, text: &mut Text) {
        put_hex(text, &self.ssrc.to_be_bytes());
        match self.way {
            Way::Sending => put(text, b":s:"),
            Way::Receiving => put(text, b":r:"),
        }
        let [1, highest, ring @ ..] = self.track else {
            return put(text, b"-:-");
        };
        put_decimal(text, *highest);
        put(text, b":");
        match self.way {
            Way::Sending => put(text, b"-"),
            Way::Receiving => put_seen(text, ring, *highest),
        }
    }
}

impl Display for Record<'_> {
    fn fmt<W: Write>(&self, f: &mut Formatter<W>) -> fmt::Result {
        let mut text = Text::new();
        self.put_in(&mut text);
        f.write_str(str::from_utf8(&text).map_err(|_| fmt::Error)?)
    }
}

// MADE POLICY RECORD;RECORD.. The records stand in the order in which they were added: each new one took the first free place.
#[derive(Clone, Copy)]
pub struct State<'a>(&'a [u64; SIZE]);

impl Display for State<'_> {
    fn fmt<W: Write>(&self, f: &mut Formatter<W>) -> fmt::Result {
        let session = self.0;
        let first = session[0];
        let made = u8::from(is_made(first));
        let policy = u64::from(load_policy(first));
        write!(f, "{made} {policy} ")?;
        let records = session[FRONT..].chunks_exact(EACH);
        write_list(f, records.filter_map(|words| Record::in_words(words)), ";")
    }
}

// `None` where there are words behind the session, and for memory of another size.
pub fn show_state<'a>(session: &'a [u64], words: &[&[u8]]) -> Option<State<'a>> {
    if !words.is_empty() {
        return None;
    }
    Some(State(session.as_array()?))
}
