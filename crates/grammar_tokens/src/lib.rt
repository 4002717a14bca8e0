//! The tokens of the grammar of the whole language, as the program holds them.
#![tactic(auto)]

mod token;

pub use token::Token;
