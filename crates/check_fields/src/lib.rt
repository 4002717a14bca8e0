//! The fields of record types.
#![tactic(auto)]

/// Crates below that are handed on.
pub mod handed {
    pub use check_scopes;
    pub use check_scopes::handed::spec_table;
}

mod fields;

pub use fields::{field_form, has_field};
