//! What parts of a node have to meet, and the form that follows from theirs. It hands on what operators have.
#![tactic(auto)]

/// Crates below that are handed on.
pub mod handed {
    pub use check_fields;
}

mod finishing;
mod gathering;
mod records;
mod shape;
mod taking;
mod wants;

pub use check_operators::{Kind, is_like, literal_form, map_with, sequence_with, set_with};
pub use finishing::finished;
pub use shape::{Seen, Shape};
pub use wants::{next_part, want_like, want_truth};
