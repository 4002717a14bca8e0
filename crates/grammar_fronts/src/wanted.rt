// What is wanted next.

/// What is wanted next in a type, a pattern or an expression, at some point of it. Where several alternatives begin alike,
/// it is what any of them wants.
#[derive(Clone, Copy, Debug, PartialEq, Eq)]
pub enum Wanted {
    // Types.
    /// A type, with all its alternatives and factors.
    WholeType,
    /// A type without alternatives and factors.
    SingleType,
    /// A further alternative or factor.
    BehindType,
    // Patterns.
    /// A pattern, with all that it is joined with.
    Pattern,
    /// `^` and a pattern.
    BehindPattern,
    /// What stands behind the `{` of a pattern.
    InCurlyPattern,
    /// What stands behind the first pattern in `{ }`.
    BehindFirstInPattern,
    /// What stands behind the `[` of a pattern.
    InSquarePattern,
    /// The patterns of a record, and its `)`.
    PatternParts,
    /// `,` and a pattern.
    MorePatterns,
    /// `,` and a pattern, `|->` and a pattern.
    MorePatternPairs,
    // Operands.
    /// An expression.
    Expression,
    /// An infix operator and an operand, or a postfix.
    BehindOperand,
    /// A backquote and a name, or `~`.
    BehindName,
    /// A backquote and a name.
    BehindClass,
    /// The expressions of a record or of a new object, and their `)`.
    Parts,
    /// `,` and an expression.
    MoreExpressions,
    // Sets, maps, sequences and applications.
    /// What stands behind a `{`.
    InCurly,
    /// What stands behind the first expression in `{ }`.
    BehindFirstInCurly,
    /// What stands behind the first `,` in `{ }`.
    SecondInCurly,
    /// What stands behind the first `a |-> b` in `{ }`.
    BehindFirstPair,
    /// `,` and a further `a |-> b`.
    MorePairs,
    /// What stands behind a `[`.
    InSquare,
    /// What stands behind the first expression in `[ ]`.
    BehindFirstInSquare,
    /// What stands behind the `(` of an application.
    Arguments,
    /// What stands behind the first argument.
    BehindFirstArgument,
    /// What stands behind the first `,` between arguments.
    SecondArgument,
    /// `,` and a further `f |-> a` of `mu`.
    MoreChanges,
    /// `,` and a further name of a counter.
    MoreNames,
    // Binds.
    /// What stands behind a pattern of a bind.
    BehindBound,
    /// What stands behind the pattern of a bind that has exactly one.
    BehindOnlyBound,
    /// The `set` of a bind. It never comes: `in` before `set` is one word with it.
    SetOfBind,
    /// `,` and a bind.
    MoreBinds,
    /// `&` and a condition.
    Condition,
    // What reaches as far to the right as it can.
    /// What stands behind the first pattern of a `let`.
    BehindLet,
    /// `:` and the type of a local definition.
    LocalType,
    /// `,` and a local definition.
    MoreLocals,
    /// `be st` and a condition.
    SuchThat,
    /// The `in` of a `def`.
    InOfDef,
    /// `elseif` or `else`, and what follows.
    Otherwise,
    /// What stands behind a pattern of an alternative of `cases`.
    BehindCase,
    /// `,` and a further alternative of `cases`, or `end`.
    MoreCases,
    /// `others`, or a further alternative of `cases`.
    NextCase,
    // One word alone.
    Identifier,
    Whole,
    OpenRound,
    CloseRound,
    CloseSquare,
    CloseCurly,
    Comma,
    Colon,
    MapsTo,
    Arrow,
    Ampersand,
    Equals,
    Of,
    To,
    Then,
    In,
    St,
    End,
}
