// What the programs read and print alike: a whole input, numerals, lines and words, and text that is shown in an error line.
// It uses no other crate. specs/Numerals.antt says what value a word of digits has, specs/Pieces.antt what the lines
// of a text and the words of a line are, specs/Shown.antt how bytes are shown.
#![tactic(auto)]

pub mod input;
pub mod numeral;
pub mod pieces;
pub mod shown;
