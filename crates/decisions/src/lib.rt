// What a listing decides of a request: definitions and theorems, and the answers with their numbers. specs/Lib.antt says in which order to read.
#![tactic(auto)]

pub mod answers; // the five answers, and their numbers
