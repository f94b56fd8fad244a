// An input as a whole, as far as a buffer holds it.
ghost use Rattle.std.specs.Prelude.{◌≡◌, ◌≢◌, ◌≤◌, length, take, IfOk, IfErr, IfSome, OnErr};
ghost use Rattle.std.specs.IoError.{error_kind};
ghost use Rattle.std.specs.Io.KnownBytes.{Consumes};

use std::io;
use std::io::{ErrorKind, Read};

// Reads until the buffer is full or the input ends, and gives back how many bytes it put at the buffer's start. A read that is interrupted is tried
// again, and after 2^64 - 1 reads it gives up. That aside, the one error is that of a read that failed; what the buffer then holds is not told.
pub fn read_full<R: Read>(input: &mut R, buf: &mut [u8]) -> io::Result<usize>
    ensures ok { IfOk result (λ n. n ≤ length buf.new) }
    ensures known { IfOk result (λ n. IfSome (R.remaining input.old) (λ bytes. take n buf.new ≡ take (length buf.new) bytes)) }
    ensures rest { IfOk result (λ n. Consumes (R.remaining input.old) (R.remaining input.new) (take n buf.new)) }
    ensures err { OnErr result (length buf.new ≡ length buf.old) }
    ensures retried { IfErr result (λ e. error_kind e ≢ ErrorKind.Interrupted) }
{
    let mut done = 0;
    for _ in 0..u64::MAX {
        if done >= buf.len() {
            return Ok(done);
        }
        match input.read(&mut buf[done..]) {
            Ok(0) => return Ok(done),
            Ok(got) => done += got,
            Err(error) if error.kind() == ErrorKind::Interrupted => {}
            Err(error) => return Err(error),
        }
    }
    Err(io::Error::from(ErrorKind::TimedOut))
}
