// Literals.

use vdm_kinds::Name;

/// A literal of an expression or a pattern.
#[derive(Debug, Drop)]
pub enum Literal {
    Whole(i128),
    Character(char),
    /// A string, by its characters.
    Text(Vec<char>),
    /// By the name between its signs.
    Quote(Name),
    Bool(bool),
    Nil,
}
