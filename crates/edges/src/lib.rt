// What the programs on stored edges share. Each runs its call on the files case000, case001, .. and writes a line for what the call hands back.
#![tactic(auto)]

pub mod cases; // the files of the cases
pub mod lines; // the line that is written
pub mod work; // the work table around a call
