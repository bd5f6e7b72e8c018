// How the first bytes divide.

#[derive(Clone, Copy, Debug, PartialEq, Eq)]
pub struct Census {
    // of a group or a command, those with the mode that is not allowed among them
    pub grouped: u16,
    // of WR4, with the mode that is not allowed
    pub bad_mode: u16,
    // neither of a group nor a command
    pub ungrouped: u16,
}
