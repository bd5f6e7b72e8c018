// The status latches, and the causes of an interrupt.

#[derive(Clone, Copy, Debug, PartialEq, Eq)]
pub struct Causes {
    pub matched: bool,
    pub ended: bool,
}

#[derive(Clone, Copy, Debug, PartialEq, Eq)]
pub struct Latches {
    pub moved: bool,
    pub matched: bool,
    pub ended: bool,
    pub causes: Causes,
}
