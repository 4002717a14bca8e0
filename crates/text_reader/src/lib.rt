//! Reads the two texts: lexing and grammar, the table of the classes and the checks, and under `run` what is built so far, last.
#![tactic(auto)]

/// Crates below that are handed on.
pub mod handed {
    pub use spec_check;
    pub use spec_check::handed::spec_table;
}

mod expression;
mod specification;
mod texts;

pub use expression::parse_expression;
pub use specification::read_specification;
pub use texts::read_texts;
