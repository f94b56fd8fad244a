// The line `guess`.
use replay::answer::tell;
use replay::receive::{accept, receive};
use std::fmt;
use std::fmt::{Display, Formatter, Write};
use text::reading::{index, number};

// NO INDEX DISTANCE.
#[derive(Clone, Copy)]
pub struct Guess {
    number: u8,
    index: u64,
    distance: i32,
}

impl Display for Guess {
    fn fmt<W: Write>(&self, f: &mut Formatter<W>) -> fmt::Result {
        let Guess {
            number,
            index,
            distance,
        } = self;
        write!(f, "{number} {index} {distance}")
    }
}

// HIGHEST SEQ, for a window of 64; `None` where the words cannot be read.
pub fn guess_index(words: &[&[u8]]) -> Option<Guess> {
    let [highest, sequence] = words else {
        return None;
    };
    let mut track = [0u64; 6];
    accept(&mut track, index(highest)?);
    let arrival = receive(&track, 64, 0, number(sequence)?);
    let told = tell(arrival.judged);
    Some(Guess {
        number: told.number,
        index: told.index,
        distance: arrival.distance,
    })
}
