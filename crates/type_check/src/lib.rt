//! The check of an expression: its form, or the first refusal.
#![tactic(auto)]

/// Crates below that are handed on.
pub mod handed {
    pub use check_named::handed::{
        check_frames, check_names, check_patterns, check_scopes, check_shapes, check_steps,
        check_types, spec_table,
    };
    pub use check_parts::handed::check_binds;
}

mod check;
mod exprs;
mod run;
mod state;
mod turn;

pub use check::{check_expr, form_here};
