//! Definitions: which statements, definitions and specifications are well typed, and what is refused of the others. No code.
#![tactic(auto)]

mod laws;

pub use laws::well_typed;
