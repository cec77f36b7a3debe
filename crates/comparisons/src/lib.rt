// What comparing two listings hands back; of code the struct and how it is made alone. specs/Lib.antt says what is promised of it.
#![tactic(auto)]

pub mod answers; // what is handed back
