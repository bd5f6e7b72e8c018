// What a byte's read or write answers.
use registers::answer::Move;

#[derive(Clone, Copy, Debug, PartialEq, Eq)]
pub(crate) struct Step {
    pub made: Move,
    // it found a match
    pub matched: bool,
}
