// The lines of a listing, each by itself: of a byte, and of the whole table.
ghost use Rattle.std.specs.Prelude.{Some};
ghost use Rattle.listing.specs.Lines.{refused_words, byte_words, byte_line, outcome_line};

use crate::first::FirstWords;
use crate::follower::{Announced, Carried, Due};
use control::decoded::{ControlByte, Decoded};
use control::fault::{DecodeFault, TableFault};
use control::follower::{Follower, Followers};
use std::fmt;

#[derive(Clone, Copy)]
struct Refused(DecodeFault);

impl fmt::Display for Refused {
    ghost output = { λ x. Some (refused_words x.0) };

    fn fmt<W: fmt::Write>(&self, f: &mut fmt::Formatter<W>) -> fmt::Result {
        write!(f, "(refused {})", self.0.number())
    }
}

// What a byte says; `was` was due where it stands.
#[derive(Clone, Copy)]
struct ByteWords {
    was: Option<Follower>,
    answer: Result<Decoded, DecodeFault>,
}

impl fmt::Display for ByteWords {
    ghost output = { λ x. Some (byte_words x.was x.answer) };

    fn fmt<W: fmt::Write>(&self, f: &mut fmt::Formatter<W>) -> fmt::Result {
        match self.answer {
            Ok(
                Decoded {
                    control: ControlByte::First(first),
                    due,
                },
            ) => write!(f, "{}{}", FirstWords(first), Announced(due)),
            Ok(
                Decoded {
                    control: ControlByte::Follower(byte),
                    due,
                },
            ) => write!(f, "{}{}", Due(self.was), Carried { byte, due }),
            Err(fault) => write!(f, "{}", Refused(fault)),
        }
    }
}

// The line of a byte, by the followers that were due at its place and how it was decoded.
#[derive(Clone, Copy)]
pub(crate) struct ByteLine {
    pub(crate) place: usize,
    pub(crate) due: Followers,
    pub(crate) byte: u8,
    pub(crate) answer: Result<Decoded, DecodeFault>,
}

impl fmt::Display for ByteLine {
    ghost output = { λ x. Some (byte_line x.place x.due x.byte x.answer) };

    fn fmt<W: fmt::Write>(&self, f: &mut fmt::Formatter<W>) -> fmt::Result {
        let ByteLine {
            place,
            due,
            byte,
            answer,
        } = *self;
        let words = ByteWords {
            was: due.next(),
            answer,
        };
        writeln!(f, "({place} {byte:02X} {words})")
    }
}

// The last line, of a table of so many bytes.
#[derive(Clone, Copy)]
pub(crate) struct OutcomeLine {
    pub(crate) count: usize,
    pub(crate) outcome: Result<Followers, TableFault<DecodeFault>>,
}

impl fmt::Display for OutcomeLine {
    ghost output = { λ x. Some (outcome_line x.count x.outcome) };

    fn fmt<W: fmt::Write>(&self, f: &mut fmt::Formatter<W>) -> fmt::Result {
        let count = self.count;
        match self.outcome {
            Ok(due) => match due.next() {
                None => writeln!(f, "(table {count})"),
                Some(follower) => writeln!(f, "(table {count} (due {follower}))"),
            },
            Err(TableFault { place, due, fault }) => writeln!(
                f,
                "(table {} (at {place}) (due {}))",
                Refused(fault),
                Due(due)
            ),
        }
    }
}
