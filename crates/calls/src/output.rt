// The lines that are written.
use arrayvec::ArrayVec;
use std::fmt::Display;
use std::io;
use std::io::Write;

// Each line is put together here, and goes out with its line feed in one write. No line is longer than the longest that is read.
#[derive(Drop)]
pub struct Output<'a, R> {
    rt: &'a R,
    line: ArrayVec<u8, 20001>,
}

impl<'a, R: Print> Output<'a, R> {
    pub fn new(rt: &'a R) -> Self {
        Output {
            rt,
            line: ArrayVec::new(),
        }
    }

    // `?` for a line that cannot be read.
    pub fn reply<D: Display>(&mut self, answer: &Option<D>) -> io::Result<()> {
        self.line.clear();
        match answer {
            Some(answer) => self.line.writeln(answer)?,
            None => self.line.write_all(b"?\n")?,
        }
        self.rt.write_all(&self.line)
    }

    pub fn unreadable(&mut self) -> io::Result<()> {
        self.rt.write_all(b"?\n")
    }

    pub fn write_back(&mut self, line: &[u8]) -> io::Result<()> {
        self.line.clear();
        self.line.write_all(line)?;
        self.line.write_all(b"\n")?;
        self.rt.write_all(&self.line)
    }
}
