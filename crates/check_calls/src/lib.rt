//! What is called, created and selected, and what is refused of it.
#![tactic(auto)]

/// Crates below that are handed on.
pub mod handed {
    pub use check_fields::handed::{check_scopes, spec_table};
    pub use check_names;
}

mod called;
mod callee;
mod created;
mod looked_up;
mod selected;
mod selection;

pub use called::{named_callee, qualified_callee};
pub use callee::{Call, Callee};
pub use created::{Creation, created_callee};
pub use looked_up::value_callee;
pub use selected::Use;
pub use selection::{selected_callee, selected_of_class};
