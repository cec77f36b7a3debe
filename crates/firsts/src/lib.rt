// Equal texts are found once: each `pattern` line of two held views gets the number of the first line with its text.
#![tactic(auto)]

pub mod lines; // the lines of both, new's and then old's
pub mod sharing; // how many bytes two texts share from their start
pub mod entering; // line after line, each with the first line that has its text
