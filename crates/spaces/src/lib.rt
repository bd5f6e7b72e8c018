// The two spaces of a board, by what they mean: memories and device spaces, and layers over any of them.
// It uses the crate `ring`. specs/Cells.antt and specs/Ports.antt say what a space means,
// specs/Memories.antt and specs/Devices.antt which meaning each implementation has, specs/Splits.antt what a split holds.
#![tactic(auto)]

pub mod alike;
pub mod device;
pub mod memory;
mod on_loan;
pub mod split;
