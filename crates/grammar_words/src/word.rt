// What a token is to the grammar.

use vdm_kinds::{BasicType, Counter, Place, Sign};

/// What a token is to the grammar, without the name or the value that it stands for.
#[derive(Clone, Copy, Debug, PartialEq, Eq)]
pub enum Word {
    // What carries a name or a value.
    Identifier,
    /// `<Red>`
    Quote,
    /// A whole literal.
    Whole,
    /// A character literal.
    Character,
    /// A string literal.
    Text,
    /// An identifier that begins with `mk_` and goes on; the rest is a name.
    MakeNamed,
    /// An identifier that begins with `is_` and goes on; the rest is a name, and no basic type.
    IsNamed,
    // Identifiers that are forms of their own.
    /// `mk_`
    MakeTuple,
    /// `mk_token`
    MakeToken,
    /// `is_`
    IsType,
    /// `is_nat` and its kin.
    IsBasic(BasicType),
    // Operators.
    /// An operator: between operands, or before one where it is only a prefix. `+` and `-` are the signs between operands,
    /// wherever they stand. `in` before `set`, and `not` before `in set` behind what ends an operand, are one word.
    Operator(Sign),
    // Brackets and other signs.
    OpenRound,
    CloseRound,
    OpenSquare,
    CloseSquare,
    OpenCurly,
    CloseCurly,
    Comma,
    Semicolon,
    Colon,
    /// `::`
    DoubleColon,
    /// `:=`
    Becomes,
    /// `==`
    DoubleEqual,
    /// `==>`
    DoubleArrow,
    /// `->`
    Arrow,
    /// `+>`
    TotalArrow,
    /// `&`
    Ampersand,
    /// `|`
    Bar,
    /// `||`
    DoubleBar,
    /// `|->`
    MapsTo,
    Dot,
    /// `.#`
    DotNumber,
    /// `...`
    Dots,
    /// `~`
    Tilde,
    Backquote,
    /// `#fin` and its kin.
    Counter(Counter),
    // Words of expressions.
    True,
    False,
    Nil,
    SelfWord,
    Time,
    Undefined,
    Result,
    Let,
    Be,
    St,
    /// `in` that is not before `set`.
    In,
    Def,
    If,
    Then,
    Elseif,
    Else,
    Cases,
    Others,
    End,
    Forall,
    Exists,
    ExistsOne,
    Iota,
    /// `mu`
    Modify,
    New,
    IsOfClass,
    IsOfBaseClass,
    SameClass,
    SameBaseClass,
    // Words of types.
    Basic(BasicType),
    /// `set` that is not behind `in`.
    Set,
    Of,
    Seq,
    Seq1,
    Map,
    InMap,
    To,
    // Words of statements.
    Dcl,
    Atomic,
    Return,
    Exit,
    While,
    Do,
    For,
    All,
    By,
    Trap,
    With,
    Tixe,
    Always,
    Skip,
    Error,
    Start,
    StartList,
    // Words of classes.
    Class,
    Is,
    Subclass,
    Types,
    Values,
    Instance,
    Variables,
    Functions,
    Operations,
    Thread,
    Sync,
    Per,
    Mutex,
    Periodic,
    Inv,
    Pre,
    Post,
    Measure,
    Static,
    Private,
    Protected,
    Public,
    Yet,
    Specified,
    Responsibility,
    /// The end of the text.
    TextEnd,
}

/// A word, and the place of its first character.
#[derive(Clone, Copy, Debug, PartialEq, Eq)]
pub struct PlacedWord {
    pub word: Word,
    pub place: Place,
}
