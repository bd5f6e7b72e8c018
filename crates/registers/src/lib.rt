// What a channel remembers, and every rule of the channel as a definition.
// The structs are plain rows, with no invariant in their types, nested by what touches them. It uses `control` for
// what a control byte says and `spaces` for what a memory and a device space mean; specs/ has the rules.
#![tactic(auto)]

pub mod answer;
pub mod chip;
pub mod fault;
pub mod input;
pub mod latches;
pub mod manner;
mod numbers;
pub mod outcome;
pub mod program;
pub mod progress;
pub mod read_out;
pub mod row;
pub mod worked;
