// The walk over the numbers of two listings, to the first request that new grants and old does not. No text is looked at here.
#![tactic(auto)]

pub mod stems; // the numbers of a stem
pub mod gathering; // the rosters of all extensions together
pub mod walking; // stem after stem, and behind a prefix all extensions at once
