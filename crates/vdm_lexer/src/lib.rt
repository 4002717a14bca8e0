//! Cuts a text into its lexemes.
#![tactic(auto)]

mod character;
mod comment;
mod decoded;
mod escape;
mod front;
mod laws;
mod lexeme;
mod lexer;
mod numeral;
mod piece;
mod quoted;
mod sign;
mod spot;
mod word;
mod written;

pub use laws::{
    identifiers_are_of_unicode, longest_sign_is_taken, one_list, spans_rise, worked_lexemes,
};
pub use lexeme::{LexKind, Lexeme};
pub use lexer::lex;
pub use numeral::digits_value;
pub use written::{SIGNS, WORDS_FROM_M, WORDS_TO_L, WrittenKind};
