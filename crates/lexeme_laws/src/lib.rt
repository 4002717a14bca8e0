//! What the lexemes of a text are, in the grammar's own words, and that they are those that are read.
#![tactic(auto)]

mod laws;

pub use laws::{
    longest_tokens_are_taken, one_answer, pieces_are_the_text, reading_is_the_relation,
};
