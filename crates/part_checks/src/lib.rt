//! What definitions are made of: expressions that have to meet a form, conditions, types, and the patterns of parameters.
#![tactic(auto)]

/// Crates below that are handed on.
pub mod handed {
    pub use definition_scopes;
    pub use definition_scopes::handed::{check_scopes, spec_table};
    pub use type_check;
    pub use type_check::handed::{check_frames, check_names, check_types};
}

mod conditions;
mod exprs;
mod parameters;
mod types;

pub use conditions::{refuse_condition_at, refuse_maybe_condition_at};
pub use exprs::{refuse_expr, refuse_wanted};
pub use parameters::{inside_parameter, inside_parameters, refuse_parameter, refuse_parameters};
pub use types::{refuse_maybe_type, refuse_types};
