// What a cycle is given: the level of Ready, and the waits that a slow memory or device asks for.
use control::fields::Level;

#[derive(Clone, Copy, Debug, PartialEq, Eq)]
pub struct CycleInput {
    pub ready: Level,
    pub waits: u8,
}
