// Control bytes of a Z80 DMA channel, with no channel state: what each byte that
// a CPU writes says, which followers it announces, and why it is refused.
#![tactic(auto)]

mod bits;
pub mod census;
pub mod decode;
pub mod decoded;
pub mod fault;
pub mod fields;
pub mod first;
pub mod follower;
mod numbers;
pub mod table;
pub mod tally;
mod words;
