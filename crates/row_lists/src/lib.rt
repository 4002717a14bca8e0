//! Answers of rows on lists of values, pairs and slots.
//!
//! A request is a word and the words behind it; the head of the module says which words it answers. What the words make
//! stands on a desk that is lent.
#![tactic(auto)]

mod lists;

use row_desk::Desk;
use row_words::Line;

/// Answers a request; tells whether the word is one of this library's.
pub fn answer(desk: &mut Desk, line: &mut Line<'_>, word: &str) -> bool {
    match word {
        "list" | "pairs" | "slots" => {
            desk.read(line);
            lists::answer(desk, line, word);
            true
        }
        _ => false,
    }
}
