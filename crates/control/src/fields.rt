// What the bit fields of control bytes say, as the sheet names them.

// What a channel does with each byte of a block.
#[derive(Clone, Copy, Debug, PartialEq, Eq)]
pub enum Class {
    Transfer,
    Search,
    // transfer and search
    Both,
}

#[derive(Clone, Copy, Debug, PartialEq, Eq)]
pub enum PortName {
    A,
    B,
}

#[derive(Clone, Copy, Debug, PartialEq, Eq)]
pub enum Space {
    Memory,
    Io,
}

// How a port's counter moves after each byte.
#[derive(Clone, Copy, Debug, PartialEq, Eq)]
pub enum AddressRule {
    Decrement,
    Increment,
    Fixed,
}

// How the channel holds the buses.
#[derive(Clone, Copy, Debug, PartialEq, Eq)]
pub enum Mode {
    Byte,
    Continuous,
    Burst,
}

// The level of a line.
#[derive(Clone, Copy, Debug, PartialEq, Eq)]
pub enum Level {
    Low,
    High,
}

// A port's programmed length of a bus cycle, in T-cycles.
#[derive(Clone, Copy, Debug, PartialEq, Eq)]
pub enum Timing {
    Two,
    Three,
    Four,
}

// The interrupt control byte.
#[derive(Clone, Copy, Debug, PartialEq, Eq)]
pub struct InterruptControl {
    pub on_match: bool,
    pub on_end: bool,
    pub pulses: bool,
    pub status_in_vector: bool,
}
