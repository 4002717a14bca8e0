// Lexemes.

use vdm_kinds::Place;

/// What a lexeme is.
#[derive(Clone, Copy, Debug, PartialEq, Eq)]
pub enum LexKind {
    Identifier,
    /// A whole literal, decimal or hexadecimal.
    Whole,
    /// A character literal.
    Character,
    /// A string literal.
    Text,
    /// An identifier between `<` and `>`.
    Quote,
    /// A reserved word.
    Reserved,
    Sign,
    /// The end of the text, which has no bytes.
    End,
}

/// A piece of a text that stands for one thing.
#[derive(Clone, Copy, Debug, PartialEq, Eq)]
pub struct Lexeme {
    pub kind: LexKind,
    /// How many bytes of the text stand before it.
    pub start: usize,
    /// How many bytes of the text stand before what follows it.
    pub end: usize,
    /// The place of its first character.
    pub place: Place,
}
