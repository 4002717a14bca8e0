//! Reads the lexemes of a text as the words of the grammar.
#![tactic(auto)]

mod laws;
mod lexeme_word;
mod words;
mod written;

pub use laws::all_have_words;
pub use lexeme_word::{slice_of, word_of_lexeme};
pub use words::words_of;
pub use written::{FORMS, SIGNS, WORDS_FROM_M, WORDS_TO_L};
