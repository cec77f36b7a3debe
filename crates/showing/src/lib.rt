// The hit becomes text: only the path that is shown is ever written.
#![tactic(auto)]

pub mod paths; // the path of a stem
pub mod hits; // the request of a hit, as the answer shows it
