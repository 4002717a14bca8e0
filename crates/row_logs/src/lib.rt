//! Answers of rows on threads and the entries of a journal, on the texts of values, the lines of the log and whole reports.
//!
//! A request is a word and the words behind it; the head of each module says which words it answers. What the words make
//! stands on a desk that is lent.
#![tactic(auto)]

mod journals;
mod logs;

use row_desk::Desk;
use row_words::Line;

/// Answers a request; tells whether the word is one of this library's.
pub fn answer(desk: &mut Desk, line: &mut Line<'_>, word: &str) -> bool {
    match word {
        "value" | "slot" | "line" | "report" => logs::answer(desk, line, word),
        "is" => journals::are_one(line),
        "own" => journals::own(line),
        "made" | "of-object" | "of-thread" => journals::answer(desk, line, word),
        "same-entry" | "same-question" | "same-deed" => {
            desk.read(line);
            journals::are_same(desk, line, word);
        }
        "entries" | "answers" => {
            desk.read(line);
            journals::lists(desk, line, word);
        }
        _ => return false,
    }
    true
}
