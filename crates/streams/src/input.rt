// An input read to its end.
ghost use Rattle.std.specs.Prelude.{◌≤◌, length, IfOk};

use std::io;
use std::io::Read;

// Reads until the buffer is full or the input ends: so many bytes in front of the buffer.
pub fn read_input<R: Read>(from: &mut R, buffer: &mut [u8]) -> io::Result<usize>
    ensures { IfOk result (λ n. n ≤ length buffer.new) }
{
    let mut at = 0;
    while at < buffer.len() {
        let more = from.read(&mut buffer[at..])?;
        if more == 0 {
            break;
        }
        at += more;
    }
    Ok(at)
}
