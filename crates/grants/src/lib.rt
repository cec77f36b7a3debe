// Whom two held listings grant at a best line, in one numbering of roles and of trial methods, and whom the new one grants that the old one does not.
#![tactic(auto)]

pub mod scratch; // where the numbers of a comparison stand
pub mod rosters; // whom a listing grants at a best line, method by method
pub mod judging; // what two best lines come to
