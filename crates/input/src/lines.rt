// The input, cut into lines.
ghost use Rattle.std.specs.Prelude.{◌≡◌, ◌≤◌, ◌≢◌, false, [], All, IfOk, IfSome, option_copied};
ghost use Rattle.input.specs.Lines.{next_line_of};

use arrayvec::ArrayVec;
use std::io;
use std::io::{BufRead, ErrorKind, Read, Write};

// What is still to be cut stands in the chunk between `from` and `filled`.
#[derive(Drop)]
pub struct Lines<R> {
    input: R,
    chunk: [u8; 4096],
    from: usize,
    filled: usize,
    ended: bool,
    ghost ordered: { from ≤ filled },
    ghost within: { filled ≤ 4096 },
}

impl<R: Read> Lines<R> {
    // Nothing is read yet, and the input is not known to have ended.
    pub fn new(input: R) -> Self
        ensures unread { result.from ≡ result.filled }
        ensures not_ended { result.ended ≡ false }
    {
        Lines {
            input,
            chunk: [0; 4096],
            from: 0,
            filled: 0,
            ended: false,
        }
    }

    // One read of the input; at its end the chunk stays empty. After an error it is empty too, and so it is where a signal interrupts the read: the next one
    // goes on.
    fn refill(&mut self) -> io::Result<()> {
        self.from = 0;
        self.filled = 0;
        match self.input.read(&mut self.chunk) {
            Ok(filled) => {
                self.filled = filled;
                self.ended = filled == 0;
                Ok(())
            }
            Err(e) if e.kind() == ErrorKind::Interrupted => Ok(()),
            Err(e) => Err(e),
        }
    }

    // The next line, without its line feed; `false` at the end, after which nothing is read any more. Where the input ends in the middle of a line, that is one
    // too. Of a line that does not fit the first N bytes are kept. A proved loop has to end, and nothing says that the input does: it is bounded by a number of
    // turns that no run uses up. The one error is that of a read that failed: `line` then holds what was read of it before.
    pub fn next_line<const N: usize>(&mut self, line: &mut ArrayVec<u8, N>) -> io::Result<bool>
        ensures no_feed { IfOk result (λ _. All (λ b. b ≢ 10) line.new.items) }
        ensures nothing_at_the_end { IfOk result (λ more. more ≡ false → line.new.items ≡ []) }
    {
        line.clear();
        let mut is_begun = false;
        for _ in 0..u64::MAX {
            let rest = &self.chunk[self.from..self.filled];
            if let Some(length) = rest.iter().position(|b| *b == b'\n') {
                line.write(&rest[..length])?;
                self.from += length + 1;
                return Ok(true);
            }
            line.write(rest)?;
            is_begun |= !rest.is_empty();
            if self.ended {
                break;
            }
            self.refill()?;
        }
        Ok(is_begun)
    }
}

// The next line of an input whose caller reads it on behind the line, without its line feed; `None` at the end. Where the input ends in the middle of a line,
// that is one too. Of a line of more than `most` bytes the first `most` and one more are kept, so that it is known for one. The one error is that of a read
// that failed or of memory: `line` then holds what was read of it before.
pub fn next_line<'a, R: BufRead>(
    input: &mut R,
    line: &'a mut Vec<u8>,
    most: usize,
) -> io::Result<Option<&'a [u8]>>
    ensures no_feed { IfOk result (λ next. IfSome next (λ l. All (λ b. b ≢ 10) l.now)) }
    ensures known { IfOk result (λ next. IfSome (R.remaining input.old) (λ bytes. option_copied next ≡ next_line_of most bytes)) }
{
    line.clear();
    let read = (&mut *input)
        .take((most as u64).saturating_add(1))
        .read_until(b'\n', line)?;
    if line.last() == Some(&b'\n') {
        line.pop();
    } else if read > most {
        input.skip_until(b'\n')?;
    }
    let at_end = read == 0;
    Ok(if at_end { None } else { Some(line.as_slice()) })
}

#[cfg(test)]
mod tests {
    use super::next_line;
    use std::io::BufReader;
    use std::test::Fail;

    // Where the next line begins, and that the input can be read on there, no clause says.
    #[test]
    fn one_line_after_another(rt: HostRuntime) -> Result<(), Fail> {
        let text: &[u8] = b"one\n\nlonger\nfour\nfives\n\nlast";
        let lines: [&[u8]; 7] = [b"one", b"", b"longe", b"four", b"fives", b"", b"last"];
        let mut line = Vec::new(rt.alloc());
        let mut whole = text;
        let mut buffered = BufReader::new(rt.alloc(), text)?;
        for want in lines {
            assert_eq!(rt; next_line(&mut whole, &mut line, 4)?, Some(want));
            assert_eq!(rt; next_line(&mut buffered, &mut line, 4)?, Some(want));
        }
        for _ in 0..2 {
            assert_eq!(rt; next_line(&mut whole, &mut line, 4)?, None);
            assert_eq!(rt; next_line(&mut buffered, &mut line, 4)?, None);
        }
        let mut rest: &[u8] = b"longer\nbehind it";
        assert_eq!(rt;
            next_line(&mut rest, &mut line, 4)?,
            Some(b"longe".as_slice())
        );
        assert_eq!(rt; rest, b"behind it".as_slice());
        assert_eq!(rt;
            next_line(&mut rest, &mut line, usize::MAX)?,
            Some(b"behind it".as_slice())
        );
        Ok(())
    }
}
