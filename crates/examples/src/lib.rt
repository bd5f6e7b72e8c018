// Examples of what the libraries do: three that are proved, and tests. The tests stand in a crate of their own, since a
// crate with tests is proved twice. It uses every library below the programs but the laws.
#![tactic(auto)]

mod borrowing;
mod indexing;
mod lending;
#[cfg(test)]
mod scripts_played;
#[cfg(test)]
mod tables_decoded;
#[cfg(test)]
mod tables_listed;
#[cfg(test)]
mod texts_read;
