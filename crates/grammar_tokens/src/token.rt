// A token: what is written, at its place, with the name or the value that it stands for.

use grammar_words::Word;
use vdm_kinds::{Name, Place};

/// What is written, at the place of its first character.
#[derive(Drop)]
pub enum Token {
    Identifier(Name, Place),
    /// The name between the signs of `<Red>`.
    Quote(Name, Place),
    /// From 0 to 2^127 - 1.
    Whole(i128, Place),
    Character(char, Place),
    /// A string, by its characters.
    Text(Vec<char>, Place),
    /// `mk_T`, by the name T.
    MakeNamed(Name, Place),
    /// `is_T`, by the name T.
    IsNamed(Name, Place),
    /// Every other word, without a name and without a value.
    Plain(Word, Place),
}
