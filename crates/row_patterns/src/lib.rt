//! Answers of rows on patterns.
//!
//! A request is a word and the words behind it; the head of each module says which words it answers. What the words make
//! stands on a desk that is lent.
#![tactic(auto)]

mod asked;
mod binding;
mod growing;
mod record_types;

pub use asked::Asked;
pub use record_types::RecordTypes;
use row_desk::Desk;
use row_words::Line;

/// Answers a request; tells whether the word is one of this library's.
pub fn answer(desk: &mut Desk, line: &mut Line<'_>, word: &str) -> bool {
    match word {
        "bind" => {
            binding::answer(desk, line);
            true
        }
        _ => false,
    }
}
