//! What is refused in the expressions, patterns, definitions and declarations of a statement, and what they bind.
#![tactic(auto)]

/// Crates below that are handed on.
pub mod handed {
    pub use stmt_scopes;
    pub use stmt_scopes::handed::{
        check_fields, check_frames, check_scopes, check_shapes, spec_table,
    };
    pub use type_check;
    pub use type_check::handed::{check_names, check_steps};
}

mod binding;
mod brackets;
mod declarations;
mod definitions;
mod matched;
mod wanting;

pub use binding::{inside_bind, inside_set};
pub use brackets::refuse_givens;
pub use declarations::behind_declarations;
pub use definitions::inside_definitions;
pub use matched::{inside_pattern, refuse_pattern};
pub use wanting::{expr_form, refuse_expr, refuse_maybe, refuse_unlike, refuse_wanting, want_kind};
