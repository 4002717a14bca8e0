// Where a part of a statement is wanted.

ghost use Rattle.std.specs.Prelude.{◌≡◌};
ghost use Rattle.stmt_fronts.specs.Statements as statements;
ghost use Rattle.stmt_tables.specs.View.{ways_view};

use crate::names::{
    BEHIND_CLASS, CLOSE_ROUND, COLON, DECLARED_TYPE, EQUALS, EXPRESSION, IDENTIFIER, IN_WORD,
    MAPS_TO, PATTERN,
};
use crate::statements::statement_then;
use crate::turn::{Turn, inner};
use crate::ways::{Ways, at_most, either, own, within};
use grammar_fronts::Wanted;
use grammar_words::Word;
use stmt_fronts::Expected;
use vdm_kinds::Sign;

/// What stands behind the `dcl` of a block.
const LOCAL_VARIABLES: &[Expected] = &[
    IDENTIFIER,
    COLON,
    DECLARED_TYPE,
    Expected::Initial,
    Expected::MoreVariables,
    Expected::Semicolon,
    Expected::InBlock,
];

/// What stands behind the name of a loop from a number to another one.
const NUMBERS: &[Expected] = &[
    EQUALS,
    EXPRESSION,
    Expected::Within(Wanted::To),
    EXPRESSION,
    Expected::Step,
];

/// What an assignment writes to.
pub(crate) fn target(word: Word) -> Ways
    ensures { ways_view result ≡ statements.target word }
{
    match word {
        Word::Identifier => own(&[BEHIND_CLASS, Expected::TargetSteps]),
        _ => Ways::NoWay,
    }
}

/// A step into what a target names.
pub(crate) fn target_steps(word: Word) -> Ways
    ensures { ways_view result ≡ statements.target_steps word }
{
    match word {
        Word::Dot => own(&[IDENTIFIER, Expected::TargetSteps]),
        Word::OpenRound => own(&[EXPRESSION, CLOSE_ROUND, Expected::TargetSteps]),
        _ => Ways::NoWay,
    }
}

/// `;` and a further assignment of `atomic`.
pub(crate) fn more_assignments(word: Word) -> Ways
    ensures { ways_view result ≡ statements.more_assignments word }
{
    match word {
        Word::Semicolon => own(&[
            Expected::Target,
            Expected::Becomes,
            EXPRESSION,
            Expected::MoreAssignments,
        ]),
        _ => Ways::NoWay,
    }
}

/// `dcl`, or the first statement of a block.
pub(crate) fn in_block(word: Word) -> Ways
    ensures { ways_view result ≡ statements.in_block word }
{
    match word {
        Word::Dcl => own(LOCAL_VARIABLES),
        _ => statement_then(word, &[Expected::BehindStatement]),
    }
}

/// What stands behind a statement of a block.
pub(crate) fn behind_statement(word: Word) -> Ways
    ensures { ways_view result ≡ statements.behind_statement word }
{
    match word {
        Word::CloseRound => own(&[]),
        Word::Semicolon => own(&[Expected::StatementOrClose]),
        _ => Ways::NoWay,
    }
}

/// A further statement of a block, or its `)`.
pub(crate) fn statement_or_close(word: Word) -> Ways
    ensures { ways_view result ≡ statements.statement_or_close word }
{
    match word {
        Word::CloseRound => own(&[]),
        _ => statement_then(word, &[Expected::BehindStatement]),
    }
}

/// `:=` and a value.
pub(crate) fn initial(word: Word) -> Ways
    ensures { ways_view result ≡ statements.initial word }
{
    match word {
        Word::Becomes => own(&[EXPRESSION]),
        _ => Ways::NoWay,
    }
}

/// `,` and a further local variable.
pub(crate) fn more_variables(word: Word) -> Ways
    ensures { ways_view result ≡ statements.more_variables word }
{
    match word {
        Word::Comma => own(&[
            IDENTIFIER,
            COLON,
            DECLARED_TYPE,
            Expected::Initial,
            Expected::MoreVariables,
        ]),
        _ => Ways::NoWay,
    }
}

/// The value of a `return` or an `exit`.
pub(crate) fn value(word: Word) -> Ways
    ensures { ways_view result ≡ statements.value word }
{
    within(Wanted::Expression, word)
}

/// `elseif` or `else`, and what follows.
pub(crate) fn otherwise(word: Word) -> Ways
    ensures { ways_view result ≡ statements.otherwise word }
{
    match word {
        Word::Elseif => own(&[
            EXPRESSION,
            Expected::Within(Wanted::Then),
            Expected::Statement,
            Expected::Otherwise,
        ]),
        Word::Else => own(&[Expected::Statement]),
        _ => Ways::NoWay,
    }
}

/// What stands behind a pattern of an alternative of `cases`.
pub(crate) fn behind_case(word: Word) -> Ways
    ensures { ways_view result ≡ statements.behind_case word }
{
    match word {
        Word::Comma => own(&[PATTERN, Expected::BehindCase]),
        Word::Arrow => own(&[Expected::Statement]),
        _ => Ways::NoWay,
    }
}

/// `,` and a further alternative of `cases`, or `end`.
pub(crate) fn more_cases(word: Word) -> Ways
    ensures { ways_view result ≡ statements.more_cases word }
{
    match word {
        Word::Comma => own(&[Expected::NextCase]),
        Word::End => own(&[]),
        _ => Ways::NoWay,
    }
}

/// `others`, or a further alternative of `cases`.
pub(crate) fn next_case(word: Word) -> Ways
    ensures { ways_view result ≡ statements.next_case word }
{
    match word {
        Word::Others => own(&[
            Expected::Within(Wanted::Arrow),
            Expected::Statement,
            Expected::Within(Wanted::End),
        ]),
        _ => at_most(inner(
            Wanted::Pattern,
            word,
            &[Expected::BehindCase, Expected::MoreCases],
        )),
    }
}

/// What stands behind `for`. A name there is that of numbers, or a pattern.
pub(crate) fn after_for(word: Word) -> Ways
    ensures { ways_view result ≡ statements.loop word }
{
    match word {
        Word::All => own(&[PATTERN, Expected::InSetOfLoop]),
        Word::Identifier => either(
            Turn::GoesOn {
                first: &[],
                parts: NUMBERS,
            },
            inner(Wanted::Pattern, word, &[IN_WORD, EXPRESSION]),
        ),
        _ => at_most(inner(Wanted::Pattern, word, &[IN_WORD, EXPRESSION])),
    }
}

/// The `in set` of a `for all`.
pub(crate) fn in_set_of_loop(word: Word) -> Ways
    ensures { ways_view result ≡ statements.in_set_of_loop word }
{
    match word {
        Word::Operator(sign) => match sign {
            Sign::InSet => own(&[EXPRESSION]),
            _ => Ways::NoWay,
        },
        Word::In => own(&[Expected::SetOfLoop]),
        _ => Ways::NoWay,
    }
}

/// `by` and a step.
pub(crate) fn step(word: Word) -> Ways
    ensures { ways_view result ≡ statements.step word }
{
    match word {
        Word::By => own(&[EXPRESSION]),
        _ => Ways::NoWay,
    }
}

/// `,` and a further `p |-> s` of `tixe`.
pub(crate) fn more_handlers(word: Word) -> Ways
    ensures { ways_view result ≡ statements.more_handlers word }
{
    match word {
        Word::Comma => own(&[
            PATTERN,
            MAPS_TO,
            Expected::Statement,
            Expected::MoreHandlers,
        ]),
        _ => Ways::NoWay,
    }
}

/// `,` and a further statement of `||`.
pub(crate) fn more_parallel(word: Word) -> Ways
    ensures { ways_view result ≡ statements.more_parallel word }
{
    match word {
        Word::Comma => own(&[Expected::Statement, Expected::MoreParallel]),
        _ => Ways::NoWay,
    }
}
