// A program's input, read into memory that is lent.
ghost use Rattle.std.specs.Prelude.{◌≤◌, length, IfOk};

use std::io;
use std::io::Read;

// Memory for a case file. The array is made here and nowhere else: a proof about the function that makes it computes
// with its octets, and runs out of stack where it has more to do.
pub fn megabyte() -> [u8; 1048576] {
    [0u8; 1048576]
}

// Fills the buffer from its beginning as far as there is input: the part that is filled. A loop of its own, since the
// library's `read_to_end` asks for memory, and the programs of the gate ask for none.
pub fn read_full<'b, R: Read>(from: &mut R, buf: &'b mut [u8]) -> io::Result<&'b [u8]>
    ensures { IfOk result (λ filled. length filled.now ≤ length buf.old) }
{
    let mut n = 0;
    while n < buf.len() {
        let k = from.read(&mut buf[n..])?;
        if k == 0 {
            break;
        }
        n += k;
    }
    Ok(&buf[..n])
}
