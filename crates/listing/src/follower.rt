// Followers in the words of a listing: those that a byte announces, what is due, and what one carries.
ghost use Rattle.std.specs.Prelude.{Some};
ghost use Rattle.listing.specs.Lines.{announced_words, due_word, interrupt_words, carried_words};

use crate::parts::Bit;
use control::fields::InterruptControl;
use control::follower::{Follower, FollowerByte, Followers};
use std::fmt;

// The followers that a byte announces.
#[derive(Clone, Copy)]
pub(crate) struct Announced(pub(crate) Followers);

impl fmt::Display for Announced {
    ghost output = { λ x. Some (announced_words x.0) };

    fn fmt<W: fmt::Write>(&self, f: &mut fmt::Formatter<W>) -> fmt::Result {
        match self.0 {
            Followers::Zero => Ok(()),
            Followers::One(a) => write!(f, " (followers {a})"),
            Followers::Two(a, b) => write!(f, " (followers {a} {b})"),
            Followers::Three(a, b, c) => write!(f, " (followers {a} {b} {c})"),
            Followers::Four(a, b, c, d) => write!(f, " (followers {a} {b} {c} {d})"),
        }
    }
}

// What is due: a follower, or a first byte.
#[derive(Clone, Copy)]
pub(crate) struct Due(pub(crate) Option<Follower>);

impl fmt::Display for Due {
    ghost output = { λ x. Some (due_word x.0) };

    fn fmt<W: fmt::Write>(&self, f: &mut fmt::Formatter<W>) -> fmt::Result {
        match self.0 {
            None => f.write_str("first"),
            Some(follower) => write!(f, "{follower}"),
        }
    }
}

#[derive(Clone, Copy)]
struct InterruptBits(InterruptControl);

impl fmt::Display for InterruptBits {
    ghost output = { λ x. Some (interrupt_words x.0) };

    fn fmt<W: fmt::Write>(&self, f: &mut fmt::Formatter<W>) -> fmt::Result {
        write!(
            f,
            " (on-match {}) (on-end {}) (pulses {}) (status-in-vector {})",
            Bit(self.0.on_match),
            Bit(self.0.on_end),
            Bit(self.0.pulses),
            Bit(self.0.status_in_vector)
        )
    }
}

// What a follower says besides its name.
#[derive(Clone, Copy)]
pub(crate) struct Carried {
    pub(crate) byte: FollowerByte,
    // the followers due after it
    pub(crate) due: Followers,
}

impl fmt::Display for Carried {
    ghost output = { λ x. Some (carried_words x.byte x.due) };

    fn fmt<W: fmt::Write>(&self, f: &mut fmt::Formatter<W>) -> fmt::Result {
        match self.byte {
            FollowerByte::ATiming(timing) | FollowerByte::BTiming(timing) => {
                write!(f, " {}", timing.t_cycles())
            }
            FollowerByte::Interrupt(control) => {
                write!(f, "{}{}", InterruptBits(control), Announced(self.due))
            }
            _ => Ok(()),
        }
    }
}
