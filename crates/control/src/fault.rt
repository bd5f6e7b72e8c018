// Why a control byte is refused, and where in a table of them.
use crate::follower::Follower;

#[derive(Clone, Copy, Debug, PartialEq, Eq)]
pub enum DecodeFault {
    // a first byte of no group, and no command
    NoGroup,
    // WR4 with mode 11
    BadMode,
    // timing 11
    BadTiming,
    // interrupt control with D6 or D7
    BadInterruptControl,
    // read mask with D7
    BadReadMask,
}

// The first refused byte of a table: its place from 0, which follower was due
// there (`None`: a first byte was), and the byte's own fault whole.
#[derive(Clone, Copy, Debug, PartialEq, Eq)]
pub struct TableFault<F> {
    pub place: usize,
    pub due: Option<Follower>,
    pub fault: F,
}
