//! Whether an object keeps the instance invariants of its class and of its ancestors.
#![tactic(auto)]

mod condition;
mod having;
mod keeping;
mod own;

pub use having::has_invariants;
pub use keeping::keeps;
