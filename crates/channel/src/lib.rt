// What each step of the channel does, on the registers and on the two spaces: parts of calls, each equal to its definition.
// No part asks whether a loan is open, or decides which call's refusal comes before another's. `control` has what a control
// byte says, `registers` the structs and every rule, `spaces` the memory and the devices.
#![tactic(auto)]

mod bus;
mod bytes;
mod command;
pub mod control_byte;
pub mod cycle;
mod enabling;
mod finishing;
mod first_byte;
mod follower_byte;
pub mod interrupts;
mod latching;
mod loading;
mod marks;
mod matching;
mod ports;
pub mod power_on;
pub mod read_out;
mod step;
mod timing;
pub mod two_spaces;
