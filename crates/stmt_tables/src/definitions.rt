// Where a definition, or a part of one, is wanted.

ghost use Rattle.std.specs.Prelude.{◌≡◌, ◌++◌};
ghost use Rattle.stmt_fronts.specs.Classes as classes;
ghost use Rattle.stmt_fronts.specs.Turns as turns;
ghost use Rattle.stmt_tables.specs.View.{ways_view};

use crate::names::{
    CLOSE_ROUND, COLON, DECLARED_TYPE, EQUALS, EXPRESSION, LOCAL_TYPE, OPEN_ROUND, PATTERN,
};
use crate::statements::statement;
use crate::turn::{Turn, inner};
use crate::ways::{Ways, either, own, within};
use grammar_fronts::Wanted;
use grammar_words::Word;
use stmt_fronts::Expected;
use vdm_kinds::Sign;

/// What stands behind the name of a function that is defined.
const FUNCTION: &[Expected] = &[
    COLON,
    Expected::TypeOrNone,
    Expected::FunctionArrow,
    DECLARED_TYPE,
    Expected::DefinedNameAgain,
    OPEN_ROUND,
    Expected::Within(Wanted::PatternParts),
    Expected::Defined,
    Expected::FunctionBody,
    Expected::Pre,
    Expected::Post,
    Expected::Measure,
    Expected::MoreFunctionDefs,
];

/// What stands behind the name of an operation that is defined.
const OPERATION: &[Expected] = &[
    COLON,
    Expected::TypeOrNone,
    Expected::DoubleArrow,
    Expected::TypeOrNone,
    Expected::DefinedNameAgain,
    OPEN_ROUND,
    Expected::Within(Wanted::PatternParts),
    Expected::Defined,
    Expected::OperationBody,
    Expected::Pre,
    Expected::Post,
    Expected::MoreOperationDefs,
];

/// These first, and then the parts of a definition.
fn before(first: &'static [Expected], parts: &'static [Expected]) -> Ways
    ensures { ways_view result ≡ turns.own (first.now ++ parts.now) }
{
    Ways::One(Turn::GoesOn { first, parts })
}

/// The head of a definition, and these parts behind it: a level of access and `static` in either order, with at most one
/// `static`, and the name.
fn head(word: Word, parts: &'static [Expected]) -> Ways
    ensures { ways_view result ≡ classes.head word parts.now }
{
    match word {
        Word::Identifier => own(parts),
        Word::Static => before(&[Expected::LevelOrName], parts),
        Word::Private | Word::Protected | Word::Public => before(&[Expected::StaticOrName], parts),
        _ => Ways::NoWay,
    }
}

/// A level of access, or the name of a definition, behind `static`.
pub(crate) fn level_or_name(word: Word) -> Ways
    ensures { ways_view result ≡ classes.level_or_name word }
{
    match word {
        Word::Identifier => own(&[]),
        Word::Private | Word::Protected | Word::Public => own(&[Expected::DefinedName]),
        _ => Ways::NoWay,
    }
}

/// `static`, or the name of a definition, behind a level of access.
pub(crate) fn static_or_name(word: Word) -> Ways
    ensures { ways_view result ≡ classes.static_or_name word }
{
    match word {
        Word::Identifier => own(&[]),
        Word::Static => own(&[Expected::DefinedName]),
        _ => Ways::NoWay,
    }
}

/// The name of a definition or a class.
pub(crate) fn name(word: Word) -> Ways
    ensures { ways_view result ≡ classes.name word }
{
    match word {
        Word::Identifier => own(&[]),
        _ => Ways::NoWay,
    }
}

/// A definition of a type.
pub(crate) fn type_defs(word: Word) -> Ways
    ensures { ways_view result ≡ classes.type_defs word }
{
    head(
        word,
        &[
            Expected::TypeBody,
            Expected::Invariant,
            Expected::MoreTypeDefs,
        ],
    )
}

/// `;` and a further definition of a type.
pub(crate) fn more_type_defs(word: Word) -> Ways
    ensures { ways_view result ≡ classes.more_type_defs word }
{
    match word {
        Word::Semicolon => own(&[Expected::TypeDefs]),
        _ => Ways::NoWay,
    }
}

/// What a type is: `=` or `::`, and what follows.
pub(crate) fn type_body(word: Word) -> Ways
    ensures { ways_view result ≡ classes.type_body word }
{
    match word {
        Word::Operator(sign) => match sign {
            Sign::Equal => own(&[DECLARED_TYPE]),
            _ => Ways::NoWay,
        },
        Word::DoubleColon => own(&[Expected::Fields]),
        _ => Ways::NoWay,
    }
}

/// A field of a record type.
pub(crate) fn fields(word: Word) -> Ways
    ensures { ways_view result ≡ classes.fields word }
{
    match word {
        Word::Identifier => own(&[COLON, DECLARED_TYPE, Expected::Fields]),
        _ => Ways::NoWay,
    }
}

/// `inv` and what follows.
pub(crate) fn invariant(word: Word) -> Ways
    ensures { ways_view result ≡ classes.invariant word }
{
    match word {
        Word::Inv => own(&[PATTERN, Expected::DoubleEqual, EXPRESSION]),
        _ => Ways::NoWay,
    }
}

/// A definition of a value.
pub(crate) fn value_defs(word: Word) -> Ways
    ensures { ways_view result ≡ classes.value_defs word }
{
    head(
        word,
        &[LOCAL_TYPE, EQUALS, EXPRESSION, Expected::MoreValueDefs],
    )
}

/// `;` and a further definition of a value.
pub(crate) fn more_value_defs(word: Word) -> Ways
    ensures { ways_view result ≡ classes.more_value_defs word }
{
    match word {
        Word::Semicolon => own(&[Expected::ValueDefs]),
        _ => Ways::NoWay,
    }
}

/// An invariant of a class, or a definition of a variable.
pub(crate) fn variable_items(word: Word) -> Ways
    ensures { ways_view result ≡ classes.variable_items word }
{
    match word {
        Word::Inv => own(&[EXPRESSION, Expected::MoreVariableItems]),
        _ => head(
            word,
            &[
                COLON,
                DECLARED_TYPE,
                Expected::Initial,
                Expected::MoreVariableItems,
            ],
        ),
    }
}

/// `;` and a further definition of a variable.
pub(crate) fn more_variable_items(word: Word) -> Ways
    ensures { ways_view result ≡ classes.more_variable_items word }
{
    match word {
        Word::Semicolon => own(&[Expected::VariableItems]),
        _ => Ways::NoWay,
    }
}

/// A definition of a function.
pub(crate) fn function_defs(word: Word) -> Ways
    ensures { ways_view result ≡ classes.function_defs word }
{
    head(word, FUNCTION)
}

/// `;` and a further definition of a function.
pub(crate) fn more_function_defs(word: Word) -> Ways
    ensures { ways_view result ≡ classes.more_function_defs word }
{
    match word {
        Word::Semicolon => own(&[Expected::FunctionDefs]),
        _ => Ways::NoWay,
    }
}

/// A definition of an operation.
pub(crate) fn operation_defs(word: Word) -> Ways
    ensures { ways_view result ≡ classes.operation_defs word }
{
    head(word, OPERATION)
}

/// `;` and a further definition of an operation.
pub(crate) fn more_operation_defs(word: Word) -> Ways
    ensures { ways_view result ≡ classes.more_operation_defs word }
{
    match word {
        Word::Semicolon => own(&[Expected::OperationDefs]),
        _ => Ways::NoWay,
    }
}

/// A type, or `()`.
#[tactic(auto, using(crate::proofs::Wanting::nothing_more))]
pub(crate) fn type_or_none(word: Word) -> Ways
    ensures { ways_view result ≡ classes.type_or_none word }
{
    match word {
        Word::OpenRound => either(
            Turn::GoesOn {
                first: &[],
                parts: &[CLOSE_ROUND],
            },
            inner(Wanted::WholeType, word, &[]),
        ),
        _ => within(Wanted::WholeType, word),
    }
}

/// `->` or `+>`.
pub(crate) fn function_arrow(word: Word) -> Ways
    ensures { ways_view result ≡ classes.function_arrow word }
{
    match word {
        Word::Arrow | Word::TotalArrow => own(&[]),
        _ => Ways::NoWay,
    }
}

/// An expression, or `is` and why it is not there.
pub(crate) fn function_body(word: Word) -> Ways
    ensures { ways_view result ≡ classes.function_body word }
{
    match word {
        Word::Is => own(&[Expected::BehindIs]),
        _ => within(Wanted::Expression, word),
    }
}

/// A statement, or `is` and why it is not there.
pub(crate) fn operation_body(word: Word) -> Ways
    ensures { ways_view result ≡ classes.operation_body word }
{
    match word {
        Word::Is => own(&[Expected::BehindIs]),
        _ => statement(word),
    }
}

/// What stands behind the `is` of a body that is not there.
pub(crate) fn behind_is(word: Word) -> Ways
    ensures { ways_view result ≡ classes.behind_is word }
{
    match word {
        Word::Operator(sign) => match sign {
            Sign::Not => own(&[Expected::Yet, Expected::Specified]),
            _ => Ways::NoWay,
        },
        Word::Subclass => own(&[Expected::Responsibility]),
        _ => Ways::NoWay,
    }
}

/// `pre` and a condition.
pub(crate) fn pre(word: Word) -> Ways
    ensures { ways_view result ≡ classes.pre word }
{
    match word {
        Word::Pre => own(&[EXPRESSION]),
        _ => Ways::NoWay,
    }
}

/// `post` and a condition.
pub(crate) fn post(word: Word) -> Ways
    ensures { ways_view result ≡ classes.post word }
{
    match word {
        Word::Post => own(&[EXPRESSION]),
        _ => Ways::NoWay,
    }
}

/// `measure` and an expression.
pub(crate) fn measure(word: Word) -> Ways
    ensures { ways_view result ≡ classes.measure word }
{
    match word {
        Word::Measure => own(&[EXPRESSION]),
        _ => Ways::NoWay,
    }
}
