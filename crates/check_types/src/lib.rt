//! What is refused of the names of types and classes, and which records a name makes.
#![tactic(auto)]

/// Crates below that are handed on.
pub mod handed {
    pub use check_scopes;
    pub use check_scopes::handed::spec_table;
}

mod classes;
mod names;
mod records;
mod types;

pub use classes::class_faults;
pub use names::name_faults;
pub use records::{field_forms, record_faults, record_type};
pub use types::type_faults;
