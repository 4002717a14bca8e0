// What ends an expression or a pattern.

/// A word that may end an expression or a pattern, besides operators and postfixes.
#[derive(Clone, Copy)]
pub enum Stop {
    Comma,
    CloseRound,
    CloseSquare,
    CloseCurly,
    Bar,
    MapsTo,
    Ampersand,
    Then,
    Elseif,
    Else,
    In,
    Be,
    Colon,
    Arrow,
    End,
    InSet,
    Equal,
    /// Any other word.
    None,
}
