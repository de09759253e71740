// The standard input of the programs, into a list of fixed length.
#![tactic(auto)]

ghost use Rattle.std.specs.Prelude.{◌<◌, IfOk, length, take};
ghost use Rattle.std.specs.Io.{ReadsAtMost};
ghost use Rattle.std.specs.Io.KnownBytes.{Consumes, IsAtEnd};

use std::io;
use std::io::Read;

// Reads until the list is full or the input ends, and returns how many bytes it put at the list's start.
pub fn read_full<R: Read>(input: &mut R, list: &mut [u8]) -> io::Result<usize>
    ensures bound { ReadsAtMost result list.new }
    ensures bytes { IfOk result (λ n. Consumes (R.remaining input.old) (R.remaining input.new) (take n list.new)) }
    ensures full { IfOk result (λ n. n < length list.new → IsAtEnd (R.remaining input.new)) }
{
    let mut done = 0;
    while done < list.len() {
        let n = input.read(&mut list[done..])?;
        if n == 0 {
            break;
        }
        done += n;
    }
    Ok(done)
}
