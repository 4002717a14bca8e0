//! Where an expression stands, as the checker holds it, and the first refusal so far.
#![tactic(auto)]

/// Crates below that are handed on.
pub mod handed {
    pub use spec_table;
}

mod refusals;
mod scope;
mod seen_types;
mod setting;

pub use refusals::Refusals;
pub use scope::{Locals, Scope};
pub use seen_types::SeenTypes;
pub use setting::Setting;
