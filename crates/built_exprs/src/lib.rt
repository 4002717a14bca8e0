//! What of an expression is built so far: the place of the first form, in text order, that has no meaning yet.
#![tactic(auto)]

mod exprs;
mod parts;

pub use parts::{
    unbuilt_in_bind, unbuilt_in_call, unbuilt_in_definitions, unbuilt_in_expr, unbuilt_in_initial,
    unbuilt_in_object_invariant, unbuilt_in_pattern, unbuilt_in_patterns,
};
