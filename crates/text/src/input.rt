// All that a program is given to read.
ghost use Rattle.std.specs.Prelude.{◌≡◌, IfOk, IfSome};

use std::alloc::Global;
use std::io::{self, BufReader, Read};

// The bytes that a reader gives, up to its end, through a buffer. Which error it ends with, if any, is the reader's.
pub fn read_whole<R: Read + Drop>(heap: Global, reader: R) -> io::Result<Vec<u8>>
    ensures { IfOk result (λ v. IfSome (R.remaining reader) (λ bytes. v.items ≡ bytes)) }
{
    let mut bytes = Vec::new(heap);
    BufReader::new(heap, reader)?.read_to_end(&mut bytes)?;
    Ok(bytes)
}
