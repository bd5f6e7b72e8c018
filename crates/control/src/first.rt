// What a first byte says: a byte written while no follower is due.
use crate::fields::{AddressRule, Class, Level, Mode, PortName, Space};

// The seven groups of write registers.
#[derive(Clone, Copy, Debug, PartialEq, Eq)]
pub enum Group {
    Wr0,
    Wr1,
    Wr2,
    Wr3,
    Wr4,
    Wr5,
    Wr6,
}

// The commands of WR6.
#[derive(Clone, Copy, Debug, PartialEq, Eq)]
pub enum Command {
    PowerOn,
    DefaultTimingA,
    DefaultTimingB,
    Load,
    Continue,
    InterruptsOff,
    InterruptsOn,
    // interrupts off, causes and service cleared
    InterruptsReset,
    Enable,
    Disable,
    // the read mask follows
    ReadMask,
    StartReadOut,
    ReadStatus,
    ClearStatus,
    ForceReady,
}

// A first byte by its group, with what its bit fields say. Which followers it
// announces stands in the table.
#[derive(Clone, Copy, Debug, PartialEq, Eq)]
pub enum First {
    Wr0 {
        class: Class,
        source: PortName,
    },
    // port A
    Wr1 {
        space: Space,
        rule: AddressRule,
    },
    // port B
    Wr2 {
        space: Space,
        rule: AddressRule,
    },
    Wr3 {
        stop_on_match: bool,
        interrupts: bool,
        enable: bool,
    },
    Wr4 {
        mode: Mode,
    },
    Wr5 {
        ready: Level,
        heed_waits: bool,
        auto_restart: bool,
    },
    Wr6(Command),
}
