// The types that have a word of their own.

/// A type that has a word of its own.
#[derive(Clone, Copy, Debug, PartialEq, Eq)]
pub enum BasicType {
    /// `bool`
    Bool,
    /// `nat`
    Nat,
    /// `nat1`
    Nat1,
    /// `int`
    Int,
    /// `char`
    Char,
    /// `token`
    Token,
}
