// Two small records beside the row: the read-out, which a panel session borrows, and the forced-Ready latch.

// The read registers RR0 to RR6 by bits: which of them a start marks unread, and which are unread.
#[derive(Clone, Copy, Debug, PartialEq, Eq)]
pub struct ReadOut {
    pub mask: u8,
    pub unread: u8,
}

#[derive(Clone, Copy, Debug, PartialEq, Eq)]
pub struct Forcing {
    pub forced: bool,
}
