// Reading a web.xml and writing the listing for it. The crate `portals` says what a web.xml means and what the call hands back.
#![tactic(auto)]

pub mod answers; // what is handed back
pub mod importer; // the whole call
