// The listing of a control table: a line for each byte, up to one that is refused, and a last line for the whole.
ghost use Rattle.std.specs.Prelude.{◌≡◌, IfOk, string_bytes};
ghost use Rattle.listing.specs.Lines.{byte_lines, listing_of};

use crate::lines::{ByteLine, OutcomeLine};
use control::decode::{decode, decode_table};
use control::follower::Followers;
use std::alloc::{AllocError, Global};

fn byte_lines(heap: Global, bytes: &[u8]) -> Result<String, AllocError>
    ensures { IfOk result (λ s. string_bytes s ≡ byte_lines 0 Followers.Zero bytes.now) }
{
    let mut lines = String::new(heap);
    let mut due = Followers::Zero;
    for (place, &byte) in bytes.iter().enumerate() {
        let answer = decode(due, byte);
        let line = ByteLine {
            place,
            due,
            byte,
            answer,
        };
        write!(lines, "{line}")?;
        let Ok(taken) = answer else {
            return Ok(lines);
        };
        due = taken.due;
    }
    Ok(lines)
}

// The listing of a table.
pub fn listing(heap: Global, bytes: &[u8]) -> Result<String, AllocError>
    ensures { IfOk result (λ s. string_bytes s ≡ listing_of bytes.now) }
{
    let mut lines = byte_lines(heap, bytes)?;
    let last = OutcomeLine {
        count: bytes.len(),
        outcome: decode_table(bytes),
    };
    // behind the lines: in a text of its own, a long listing would stand twice in memory
    write!(lines, "{last}")?;
    Ok(lines)
}
