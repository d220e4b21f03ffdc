// What the programs read: the front of a buffer.
#![tactic(auto)]

ghost use Rattle.std.specs.Prelude.{◌<◌, take, length, IfOk};
ghost use Rattle.std.specs.Io.{ReadsAtMost};
ghost use Rattle.std.specs.Io.KnownBytes.{Consumes, IsAtEnd};

use std::io;
use std::io::Read;

// Reads until the buffer is full or the input ends, and answers how many bytes it put at the buffer's start. A failed read ends it,
// and what was read before that is gone. A while, for it moves by what a read gives.
pub fn read_full<R: Read>(from: &mut R, bytes: &mut [u8]) -> io::Result<usize>
    ensures bound { ReadsAtMost result bytes.new }
    ensures bytes { IfOk result (λ n. Consumes (R.remaining from.old) (R.remaining from.new) (take n bytes.new)) }
    ensures end { IfOk result (λ n. n < length bytes.new → IsAtEnd (R.remaining from.new)) }
{
    let mut done = 0;
    while done < bytes.len() {
        let n = from.read(&mut bytes[done..])?;
        if n == 0 {
            break;
        }
        done += n;
    }
    Ok(done)
}
