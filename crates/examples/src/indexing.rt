// A caller that indexes the table of first bytes by itself, and finds the entry there that the rule gives.
ghost use Rattle.std.specs.Prelude.{◌≡◌};
ghost use Rattle.control.specs.Tables.{entry_of};

use control::table::{Entry, TABLE};

pub(crate) fn row(byte: u8) -> Entry
    ensures { result ≡ entry_of byte }
{
    TABLE[usize::from(byte)]
}
