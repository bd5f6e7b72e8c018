// All of a channel: its row of registers and the two records beside it.
use crate::read_out::{Forcing, ReadOut};
use crate::row::Registers;

// A channel is held in it while control bytes are applied. The three records stay structs of their own, since a panel
// session borrows the read-out alone.
#[derive(Clone, Copy, Debug, PartialEq, Eq)]
pub struct Chip {
    pub registers: Registers,
    pub readout: ReadOut,
    pub forcing: Forcing,
}
