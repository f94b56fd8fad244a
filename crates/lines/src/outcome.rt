// What a call came to, as the end of a line of output.
use bits::refusal::Refusal;
use std::{fmt, io};

// What was called for.
#[derive(Clone, Copy)]
pub enum Told {
    Index(u64),
    Length(usize),
    GivenBack { length: usize, payload: u8 },
}

impl fmt::Display for Told {
    fn fmt<W: fmt::Write>(&self, f: &mut fmt::Formatter<W>) -> fmt::Result {
        match self {
            Told::Index(index) => write!(f, "index {index}"),
            Told::Length(length) => write!(f, "length {length}"),
            Told::GivenBack { length, payload } => write!(
                f,
                "given back, length {length}, payload {payload}"
            ),
        }
    }
}

// A refusal, by document 01's number.
#[derive(Clone, Copy)]
pub struct Refused(pub u32);

impl From<Refusal> for Refused {
    fn from(refusal: Refusal) -> Self {
        Refused(u32::from(refusal))
    }
}

impl fmt::Display for Refused {
    fn fmt<W: fmt::Write>(&self, f: &mut fmt::Formatter<W>) -> fmt::Result {
        let number = self.0;
        write!(f, "refused {number}")
    }
}

pub fn put_line(rt: &impl Print, outcome: Result<Told, Refused>) -> io::Result<()> {
    match outcome {
        Ok(told) => println!(rt; "{told}"),
        Err(refused) => println!(rt; "{refused}"),
    }
}
