// Bytes and texts: the class table, and the tests on texts that every layer uses. specs/Lib.antt says what they mean.
#![tactic(auto)]

pub mod bytes; // the class table
pub mod texts; // a text compared, a field scanned
