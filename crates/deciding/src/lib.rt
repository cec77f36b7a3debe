// Deciding one request: the layer above `reading`, and proved from its contracts alone. The crate `decisions` says what is decided.
#![tactic(auto)]

pub mod answers; // what is handed back
pub mod joining; // the best pattern, the constraints taken for it, the answer
pub mod decider; // the whole call
