// Comparing two listings: the layer above `deciding`, and proved from the contracts below alone. The crate `trials` says what is compared, `comparisons` what is handed back.
#![tactic(auto)]

pub mod comparer; // the whole call
