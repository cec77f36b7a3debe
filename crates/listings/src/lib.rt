// What a listing is made of: its records, and the numbers of its refusals. specs/Lib.antt says what a listing means.
#![tactic(auto)]

pub mod answers; // what a call can be refused for, and 01's numbers
pub mod records; // the records, and which may follow which
