// The records of a web.xml in the lent work table, while the file is read. specs/Places.antt says where what stands.
#![tactic(auto)]

pub mod items; // what a record is
pub mod searching; // a name looked for among those that are kept
pub mod keeping; // what is written of a record
pub mod adding; // a record judged, and kept
