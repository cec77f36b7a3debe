// The listing for a web.xml, written from the records in the work table: clipped, so that it is measured and written by the same code.
#![tactic(auto)]

pub mod lines; // the line of a record
pub mod arranging; // the lines in the listing's order
