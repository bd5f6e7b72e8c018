// What the program `tables` reads and prints: a control table in hexadecimal digits, and its listing.
// specs/Lines.antt says what each line of a listing is, specs/Reads.antt which bytes a written table has.
#![tactic(auto)]

mod first;
mod follower;
mod lines;
mod parts;
pub mod read;
pub mod write;
