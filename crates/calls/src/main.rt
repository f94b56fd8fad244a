// The call script: calls read from standard input, one to a line, made on the proved library and answered on standard output.
// Follows docs/CALLS.md.
#![tactic(auto)]

mod commands;
mod output;
mod packets;
mod sessions;

use crate::commands::answer;
use crate::output::Output;
use arrayvec::ArrayVec;
use input::lines::Lines;
use session::layout::SIZE;
use std::io;

// Eight sessions, none of them made. A line has a byte more than the longest that is read, so that a longer one is known. A proved loop has to end, and
// nothing says that the input does: it is bounded by a number of turns that no run uses up.
fn main(rt: HostRuntime) -> io::Result<()> {
    let mut lines = Lines::new(rt.stdin());
    let mut line = ArrayVec::<u8, 20001>::new();
    let mut output = Output::new(&rt);
    let mut desk = [[0; SIZE]; 8];
    for _ in 0..u64::MAX {
        if !lines.next_line(&mut line)? {
            break;
        }
        answer(&mut output, &mut desk, &line)?;
    }
    Ok(())
}
