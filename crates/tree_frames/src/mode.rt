// What comes next.

use crate::header::Header;
use expr_tree::{Expr, Pattern};
use grammar_tokens::Token;

/// What is wanted next, or what was read.
#[derive(Drop)]
pub enum Mode {
    /// An expression is wanted.
    Wants,
    /// An expression was read.
    Has(Box<Expr>),
    /// A pattern is wanted.
    WantsPattern,
    /// A pattern was read.
    HasPattern(Pattern),
    /// Single tokens are wanted.
    Awaits(Header),
    /// Tokens of a type were read.
    Typing(Vec<Token>),
}

impl Mode {
    /// What was read goes.
    pub fn discard(self) {}
}
