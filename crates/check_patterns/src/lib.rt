//! What patterns bind, by forms; what is refused of the records in them; and the expressions in brackets in them.
#![tactic(auto)]

/// Crates below that are handed on.
pub mod handed {
    pub use check_types;
    pub use check_types::handed::{check_scopes, spec_table};
}

mod binding;
mod bound;
mod brackets;
mod inner_forms;
mod local_form;
mod one_or_many;
mod pending;
mod records;
mod refused;
mod scoping;
mod several;
mod tuples;

pub use binding::{binds, binds_each};
pub use brackets::{givens, givens_in};
pub use inner_forms::{elements_of, items_of};
pub use local_form::LocalForm;
pub use one_or_many::Patterns;
pub use refused::{pattern_faults, patterns_faults};
pub use scoping::inside;
pub use several::scopes_behind;
