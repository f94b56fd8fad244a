// The lines that name a session.
use crate::output::Output;
use crate::packets::packet_call;
use session::layout::SIZE;
use setup_lines::add::add_stream;
use setup_lines::make::make_session;
use srtp::protect::protect;
use srtp::unprotect::unprotect;
use state_lines::state::show_state;
use std::io;
use text::reading::number;

// The memory of the eight sessions.
pub type Desk = [[u64; SIZE]; 8];

#[derive(Clone, Copy)]
pub enum SessionCall {
    Make,
    Add,
    Protect,
    Unprotect,
    State,
}

// The second word is the session, 0 to 7: its memory is lent on.
fn named<'a>(desk: &'a mut Desk, name: &[u8]) -> Option<&'a mut [u64; SIZE]> {
    desk.get_mut(number::<usize>(name)?)
}

pub fn on_session<R: Print>(
    output: &mut Output<R>,
    desk: &mut Desk,
    call: SessionCall,
    words: &[&[u8]],
) -> io::Result<()> {
    let [name, rest @ ..] = words else {
        return output.unreadable();
    };
    let Some(session) = named(desk, name) else {
        return output.unreadable();
    };
    match call {
        SessionCall::Make => output.reply(&make_session(session, rest)),
        SessionCall::Add => output.reply(&add_stream(session, rest)),
        SessionCall::Protect => packet_call(output, protect, session, rest),
        SessionCall::Unprotect => packet_call(output, unprotect, session, rest),
        SessionCall::State => output.reply(&show_state(session, rest)),
    }
}
