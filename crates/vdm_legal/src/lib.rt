//! What the entries on an object allow: what its variables hold, which entry and which question may come next, the order of one
//! lane, and how a run ends. Definitions and laws alone.
#![tactic(auto)]

mod laws;

pub use laws::{what_is_legal_is_determined, what_is_ready_is_answered};
