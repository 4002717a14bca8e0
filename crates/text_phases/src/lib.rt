//! Which texts are accepted: lexing, grammar, the table of the classes, checks; and under `run` what is built so far, last.
#![tactic(auto)]

mod laws;
mod worked;

pub use laws::{one_answer, one_specification, phases_follow, what_runs_is_built};
pub use worked::{
    built_assignments, built_bindings, built_blocks, built_classes, built_expressions,
    built_functions, built_handlers, built_operations, built_records, built_statements,
    refused_behind, refused_in_turn,
};
