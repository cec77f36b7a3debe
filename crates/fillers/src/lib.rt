// The filler of the two views that the table holds, found in one pass over their pattern texts, and the filler method. specs/Lib.antt of `trials` says what they are.
#![tactic(auto)]

pub mod finding; // the filler's number, and the filler method's
