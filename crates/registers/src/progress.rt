// What a byte's read and write change.

#[derive(Clone, Copy, Debug, PartialEq, Eq)]
pub struct Progress {
    // the ports' counters
    pub a: u16,
    pub b: u16,
    // the bytes finished since load or continue: up to N + 1, which may be 65,536
    // (the steps that need a bound of it ask for one: rows have no invariant, by a rule of the project)
    pub count: u32,
    // the byte read and not yet written
    pub held: Option<u8>,
    // the byte to compare, in the next read
    pub compare: Option<u8>,
    // a match stops the channel once the held byte is written
    // (a flag, and no part of `held`: by a rule of the project the held byte is an Option<u8> of its own)
    pub stopping: bool,
    pub enabled: bool,
}
