// The parts that lines are made of.
ghost use Rattle.std.specs.Prelude.{Some};
ghost use Rattle.listing.specs.Parts.{bit_word};

use std::fmt;

// A bit as a digit.
#[derive(Clone, Copy)]
pub(crate) struct Bit(pub(crate) bool);

impl fmt::Display for Bit {
    ghost output = { λ x. Some (bit_word x.0) };

    fn fmt<W: fmt::Write>(&self, f: &mut fmt::Formatter<W>) -> fmt::Result {
        f.write_str(if self.0 { "1" } else { "0" })
    }
}
