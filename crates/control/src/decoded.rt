// A control byte, and the followers due after it.
use crate::first::First;
use crate::follower::{FollowerByte, Followers};

#[derive(Clone, Copy, Debug, PartialEq, Eq)]
pub enum ControlByte {
    First(First),
    Follower(FollowerByte),
}

#[derive(Clone, Copy, Debug, PartialEq, Eq)]
pub struct Decoded {
    pub control: ControlByte,
    // the followers due after this byte
    pub due: Followers,
}
