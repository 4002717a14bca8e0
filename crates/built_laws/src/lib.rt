//! What is built has a meaning, and what has none is not built.
#![tactic(auto)]

mod laws;

pub use laws::{
    built_expressions_have_meaning, built_functions_have_meaning, built_operations_have_meaning,
    built_specifications_have_meaning, built_types_have_meaning, built_variables_have_meaning,
    invariants_that_are_asked_for_are_there, io_has_no_variables, others_are_undefined,
};
