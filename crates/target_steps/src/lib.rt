//! The steps from the variable of a target into its value: the form behind them, and what is refused on the way.
#![tactic(auto)]

/// Crates below that are handed on.
pub mod handed {
    pub use stmt_exprs;
    pub use stmt_exprs::handed::{
        check_frames, check_names, check_scopes, check_shapes, check_steps, spec_table,
        stmt_scopes, type_check,
    };
}

mod elements;
mod fields;
mod steps;

pub use steps::form_behind;
