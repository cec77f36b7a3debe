// The elements of a web.xml and what they hold: readers that call each other, the depth left falling.
#![tactic(auto)]

pub mod rows; // what a first tag comes to, by where it stands
pub mod giving; // what an element gives: a record where it begins, or the text that it is
pub mod walking; // elements and contents
pub mod files; // a whole file
