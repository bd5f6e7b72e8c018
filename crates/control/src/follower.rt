// Followers: the bytes that a first byte announces.
ghost use Rattle.std.specs.Prelude.{◌≡◌};
ghost use Rattle.control.specs.Followers.{next_of, rest_of, in_front};

use crate::fields::{InterruptControl, Timing};

#[derive(Clone, Copy, Debug, PartialEq, Eq)]
pub enum Follower {
    ALow,
    AHigh,
    LengthLow,
    LengthHigh,
    ATiming,
    BTiming,
    Mask,
    Match,
    BLow,
    BHigh,
    Interrupt,
    Pulse,
    Vector,
    ReadMask,
}

// The followers still due, in their order: never more than four.
// Cases, and no `Vec`: this crate allocates nothing, and a fifth can't be written down.
#[derive(Clone, Copy, Debug, PartialEq, Eq)]
pub enum Followers {
    Zero,
    One(Follower),
    Two(Follower, Follower),
    Three(Follower, Follower, Follower),
    Four(Follower, Follower, Follower, Follower),
}

impl Followers {
    // The follower that is due; none, and a first byte is.
    pub fn next(self) -> Option<Follower>
        ensures { result ≡ next_of self }
    {
        match self {
            Followers::Zero => None,
            Followers::One(a)
            | Followers::Two(a, _)
            | Followers::Three(a, _, _)
            | Followers::Four(a, _, _, _) => Some(a),
        }
    }

    // Those due after the next one.
    pub fn rest(self) -> Followers
        ensures { result ≡ rest_of self }
    {
        match self {
            Followers::Zero | Followers::One(_) => Followers::Zero,
            Followers::Two(_, b) => Followers::One(b),
            Followers::Three(_, b, c) => Followers::Two(b, c),
            Followers::Four(_, b, c, d) => Followers::Three(b, c, d),
        }
    }

    // One more in front. No group has so many that the last would fall off.
    pub(crate) fn in_front(self, first: Follower) -> Followers
        ensures { result ≡ in_front first self }
    {
        match self {
            Followers::Zero => Followers::One(first),
            Followers::One(a) => Followers::Two(first, a),
            Followers::Two(a, b) => Followers::Three(first, a, b),
            Followers::Three(a, b, c) => Followers::Four(first, a, b, c),
            Followers::Four(a, b, c, _) => Followers::Four(first, a, b, c),
        }
    }
}

// A follower with what it carries.
#[derive(Clone, Copy, Debug, PartialEq, Eq)]
pub enum FollowerByte {
    ALow(u8),
    AHigh(u8),
    LengthLow(u8),
    LengthHigh(u8),
    ATiming(Timing),
    BTiming(Timing),
    Mask(u8),
    Match(u8),
    BLow(u8),
    BHigh(u8),
    Interrupt(InterruptControl),
    Pulse(u8),
    Vector(u8),
    ReadMask(u8),
}
