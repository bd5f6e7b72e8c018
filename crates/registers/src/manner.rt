// What is programmed and decides only how the buses are used and for how long: the registers in which two boards may
// differ and still move the same bytes to the same places.
use control::fields::{Level, Mode, Timing};

#[derive(Clone, Copy, Debug, PartialEq, Eq)]
pub struct Manner {
    pub mode: Mode,
    // the ports' timings; none is the default
    pub a: Option<Timing>,
    pub b: Option<Timing>,
    // the level at which Ready is active
    pub ready: Level,
    // heed waits
    pub heed: bool,
}
