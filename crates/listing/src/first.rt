// What a first byte says, in the words of a listing.
ghost use Rattle.std.specs.Prelude.{Some};
ghost use Rattle.listing.specs.Lines.{first_words};

use crate::parts::Bit;
use control::first::First;
use std::fmt;

#[derive(Clone, Copy)]
pub(crate) struct FirstWords(pub(crate) First);

impl fmt::Display for FirstWords {
    ghost output = { λ x. Some (first_words x.0) };

    fn fmt<W: fmt::Write>(&self, f: &mut fmt::Formatter<W>) -> fmt::Result {
        match self.0 {
            First::Wr0 { class, source } => write!(f, "WR0 (class {class}) (source {source})"),
            First::Wr1 { space, rule } => write!(f, "WR1 {space} {rule}"),
            First::Wr2 { space, rule } => write!(f, "WR2 {space} {rule}"),
            First::Wr3 {
                stop_on_match,
                interrupts,
                enable,
            } => write!(
                f,
                "WR3 (stop {}) (interrupts {}) (enable {})",
                Bit(stop_on_match),
                Bit(interrupts),
                Bit(enable)
            ),
            First::Wr4 { mode } => write!(f, "WR4 (mode {mode})"),
            First::Wr5 {
                ready,
                heed_waits,
                auto_restart,
            } => write!(
                f,
                "WR5 (ready {ready}) (heed {}) (restart {})",
                Bit(heed_waits),
                Bit(auto_restart)
            ),
            First::Wr6(command) => write!(f, "WR6 {command}"),
        }
    }
}
