//! What comes first of names, words and literals, and of tests of a type or a class.
#![tactic(auto)]

/// Crates below that are handed on.
pub mod handed {
    pub use check_steps;
    pub use check_steps::handed::{
        check_frames, check_names, check_patterns, check_scopes, check_shapes, check_types,
        spec_table,
    };
}

mod names;
mod plain;
mod tested;

pub use names::name_next;
pub use plain::plain_next;
pub use tested::test_next;
