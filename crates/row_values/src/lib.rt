//! Answers of rows on names, faults, lexemes, values and sets, and times of calls.
//!
//! A request is a word and the words behind it; the head of each module says which words it answers. What the words make
//! stands on a desk that is lent.
#![tactic(auto)]

mod kinds;
mod lexemes;
mod sets;
mod text_times;
mod times;
mod values;

use row_desk::Desk;
use row_words::Line;
pub use times::{answer_time, nanoseconds, say_time};

/// Answers a request; tells whether the word is one of this library's.
pub fn answer(desk: &mut Desk, line: &mut Line<'_>, word: &str) -> bool {
    match word {
        "take" | "refusal" | "fault" => kinds::answer(line, word),
        "names" => kinds::names(desk, line),
        "name" => kinds::name(desk, line),
        "lex" | "places" => lexemes::answer(line, word),
        "order" | "rising" | "apart" | "same" | "taken" | "size" => {
            desk.read(line);
            values::answer(desk, line, word);
        }
        "set" | "map" | "set-size" | "map-size" | "insertion" | "insertion-of-pairs" => {
            desk.read(line);
            sets::answer(desk, line, word);
        }
        _ => return false,
    }
    true
}
