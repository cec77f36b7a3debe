// Reading a listing: the lowest of the three layers. specs/Lib.antt says what a call hands back; `listings` what a listing means.
#![tactic(auto)]

pub mod lines; // the line at an offset, cut
pub mod reader; // the reader that holds the text, and line by line over a listing
pub mod held; // what the crates above ask of what the table holds
