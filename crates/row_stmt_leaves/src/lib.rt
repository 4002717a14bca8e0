//! How rows write what stands in statements and has no statement in it.
#![tactic(auto)]

mod leaves;
mod targets;

pub use leaves::{
    say_bind, say_comma, say_declared, say_definitions, say_given, say_name, say_patterns,
};
pub use targets::{say_assignments, say_target};
