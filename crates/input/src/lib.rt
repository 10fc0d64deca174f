// Standard input for the programs: a buffer is filled from it, over std.
#![tactic(auto)]

ghost use Rattle.std.specs.Prelude.{◌≡◌, ◌<◌, ◌≤◌, ℕ, IfOk, OnErr, length, take};
ghost use Rattle.std.specs.Io.{ReadsAtMost};
ghost use Rattle.std.specs.Io.KnownBytes.{Consumes, IsAtEnd};

use std::io;
use std::io::Read;

// Reads until the buffer is full or the input ends, and returns how many bytes it put at the start of the buffer. A read that fails ends it with
// the error of that read; the bytes of the reads before it are at the start of the buffer, and no other is lost. `read_to_end` needs the heap, and
// `read_exact` does not say how many bytes a short input has.
pub fn read_full<R: Read>(reader: &mut R, buffer: &mut [u8]) -> io::Result<usize>
    ensures in_bounds { ReadsAtMost result buffer.new }
    ensures bytes { IfOk result (λ n. Consumes (R.remaining reader.old) (R.remaining reader.new) (take n buffer.new)) }
    ensures err { OnErr result ((n : ℕ) × (n ≤ length buffer.new) × Consumes (R.remaining reader.old) (R.remaining reader.new) (take n buffer.new)) }
    ensures end { IfOk result (λ n. n < length buffer.new → IsAtEnd (R.remaining reader.new)) }
{
    let mut count = 0;
    while count < buffer.len() {
        let n = reader.read(&mut buffer[count..])?;
        if n == 0 {
            return Ok(count);
        }
        count += n;
    }
    Ok(count)
}
