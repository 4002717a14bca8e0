//! Which record type a name stands for.
#![tactic(auto)]

mod standing;

pub use standing::record_type;
