// The parts of an XML text read in code: a lent text and places in it for lists, and no tree. The crate `documents` says what each part is; specs/Places.antt how its readers' answers are handed back.
#![tactic(auto)]

pub mod answers; // what is handed back, and where a fault is put
pub mod chars; // the kinds of bytes
pub mod words; // words, names and white space; what stands at a place
pub mod letters; // bytes of text
pub mod comments; // comments
pub mod attributes; // the attributes of a tag
pub mod tags; // the two tags of an element
pub mod around; // what stands round the element
pub mod lines; // the line of a place
pub mod gathering; // a text without its white space at both ends, put into a buffer
