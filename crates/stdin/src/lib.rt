// Input, read to its end into a buffer that the caller lends.
#![tactic(auto)]

ghost use Rattle.std.specs.Prelude.{◌≡◌, ◌<◌, ◌≤◌, length, take, IfOk, IfSome};
ghost use Rattle.std.specs.Io.KnownBytes.{Consumes, IsAtEnd};

use std::io;
use std::io::Read;

// Reads to the end of the input, or until the buffer is full, and gives how many bytes lie in the buffer. They are the input's next, where
// it is known which these are; what standard input or a file gives is free. Where a read fails, its error comes back.
pub fn read_all<R: Read>(input: &mut R, buf: &mut [u8]) -> io::Result<usize>
    ensures count { IfOk result (λ n. n ≤ length buf.new) }
    ensures front { IfOk result (λ n. IfSome (R.remaining input.old) (λ t. take n buf.new ≡ take (length buf.old) t)) }
    ensures bytes { IfOk result (λ n. Consumes (R.remaining input.old) (R.remaining input.new) (take n buf.new)) }
    ensures end { IfOk result (λ n. n < length buf.new → IsAtEnd (R.remaining input.new)) }
    ensures kept { length buf.new ≡ length buf.old }
{
    let mut done = 0;
    // A `while`: each turn goes on by as many bytes as the read gave.
    while done < buf.len() {
        let more = input.read(&mut buf[done..])?;
        if more == 0 {
            return Ok(done);
        }
        done += more;
    }
    Ok(done)
}
