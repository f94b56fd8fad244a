// A line of the script, answered by its first word.
use crate::output::Output;
use crate::sessions::{Desk, SessionCall, on_session};
use arrayvec::ArrayVec;
use element_lines::find::find_element;
use index_lines::guess::guess_index;
use mask_lines::mask::mask_block;
use std::fmt::Display;
use std::io;
use stretch_lines::stretch::stretch_data;
use text::words::well_spaced;

// A line that is longer than this cannot be read.
pub const LONGEST: usize = 20000;

// What a line asks for.
#[derive(Clone, Copy)]
enum Command {
    OnSession(SessionCall),
    Case,
    Find,
    Guess,
    Mask,
    Stretch,
}

impl Command {
    fn named(word: &[u8]) -> Option<Command> {
        match word {
            b"make" => Some(Command::OnSession(SessionCall::Make)),
            b"add" => Some(Command::OnSession(SessionCall::Add)),
            b"protect" => Some(Command::OnSession(SessionCall::Protect)),
            b"unprotect" => Some(Command::OnSession(SessionCall::Unprotect)),
            b"state" => Some(Command::OnSession(SessionCall::State)),
            b"case" => Some(Command::Case),
            b"find" => Some(Command::Find),
            b"guess" => Some(Command::Guess),
            b"mask" => Some(Command::Mask),
            b"stretch" => Some(Command::Stretch),
            _ => None,
        }
    }
}

// A new list of calls begins: the line is written back, and all sessions are forgotten.
fn new_case<R: Print>(output: &mut Output<R>, desk: &mut Desk, line: &[u8]) -> io::Result<()> {
    for session in desk.iter_mut() {
        session.fill(0);
    }
    output.write_back(line)
}

// A line without a session. The call has a frame of its own, for three of these answers hold 4,096 bytes.
#[inline(never)]
fn on_words<F, D: Display + Drop, R: Print>(
    output: &mut Output<R>,
    call: F,
    words: &[&[u8]],
) -> io::Result<()>
where
    F: FnOnce(&[&[u8]]) -> Option<D>,
    requires { F.IsAlwaysCallable call }
{
    output.reply(&call(words))
}

fn run<R: Print>(
    output: &mut Output<R>,
    desk: &mut Desk,
    line: &[u8],
    words: &[&[u8]],
) -> io::Result<()> {
    let [name, rest @ ..] = words else {
        return output.unreadable();
    };
    match Command::named(name) {
        Some(Command::OnSession(call)) => on_session(output, desk, call, rest),
        Some(Command::Find) => on_words(output, find_element, rest),
        Some(Command::Guess) => on_words(output, guess_index, rest),
        Some(Command::Mask) => on_words(output, mask_block, rest),
        Some(Command::Stretch) => on_words(output, stretch_data, rest),
        Some(Command::Case) if !rest.is_empty() => new_case(output, desk, line),
        _ => output.unreadable(),
    }
}

// Nothing is written for an empty line and for a comment, but for a longer one than is read. No call takes more than seven words: of a line with more than
// eight the first eight tell. After an error of writing, the call was made: the sessions are as after an answer that was written.
pub fn answer<R: Print>(output: &mut Output<R>, desk: &mut Desk, line: &[u8]) -> io::Result<()> {
    if line.len() > LONGEST {
        return output.unreadable();
    }
    if line.is_empty() || line.starts_with(b"#") {
        return Ok(());
    }
    if !well_spaced(line) {
        return output.unreadable();
    }
    let mut words = ArrayVec::<&[u8], 8>::new();
    let _ = words.extend(line.split(|b| *b == b' '));
    run(output, desk, line, &words)
}
