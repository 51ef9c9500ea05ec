// Bytes from an input, in a buffer of a fixed size that takes no heap.
ghost use Rattle.std.specs.Prelude.{◌≤◌, length, IfOk};

use std::io;
use std::io::Read;

// One byte more than the longest file: so much of a longer input decides that it is refused.
pub const MOST: usize = 12801;

// Fills the buffer from an input, and tells how many bytes there were.
pub fn fill(input: &mut impl Read, buffer: &mut [u8]) -> io::Result<usize>
    ensures { IfOk result (λ n. n ≤ length buffer.old) }
{
    let mut count = 0;
    while count < buffer.len() {
        let more = input.read(&mut buffer[count..])?;
        if more == 0 {
            break;
        }
        count += more;
    }
    Ok(count)
}
