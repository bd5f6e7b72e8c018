// The script of `bench`: reading it whole, making its board's two spaces, playing it and printing what came.
// It uses `spaces` and `text`. docs/bench-script.md is the language. Every function is proved safe and ending, and
// specs/Faults.antt says what an error line says; what a line means and what a script prints is held by examples,
// those of the crate `examples` and those that the program plays.
#![tactic(auto)]

mod bench;
mod command;
pub mod fault;
mod line;
pub mod play;
mod read;
mod script;
mod setup;
