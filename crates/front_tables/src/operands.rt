// Where an expression is wanted, and behind an operand.

ghost use Rattle.std.specs.Prelude.{◌≡◌};
ghost use Rattle.grammar_fronts.specs.Operands as operands;
ghost use Rattle.grammar_fronts.specs.Turns as turns;
ghost use Rattle.front_tables.specs.View.{turn_views};

use crate::pulls::{POSTFIX_PULL, before_operand, between_operands};
use crate::turn::{Turn, own};
use grammar_fronts::Wanted;
use grammar_words::Word;

/// An operand that has an end of its own, and what is wanted behind it.
fn operand(parts: &'static [Wanted], more: &'static [Wanted]) -> Option<Turn>
    ensures { turn_views result ≡ turns.then_wanted (turns.operand parts.now) more.now }
{
    Some(Turn::Begins {
        pull: 0,
        parts,
        behind: &[Wanted::BehindOperand],
        more,
    })
}

/// An operand that goes on as far to the right as it can, and what is wanted behind it.
fn far(parts: &'static [Wanted], more: &'static [Wanted]) -> Option<Turn>
    ensures { turn_views result ≡ turns.then_wanted (turns.far parts.now) more.now }
{
    Some(Turn::Begins {
        pull: 0,
        parts,
        behind: &[],
        more,
    })
}

/// What begins an expression, and what is wanted behind it.
pub(crate) fn expression(word: Word, more: &'static [Wanted]) -> Option<Turn>
    ensures { turn_views result ≡ turns.then_wanted (operands.expression word) more.now }
{
    match word {
        Word::Operator(sign) => before_operand(sign, more),
        Word::Whole
        | Word::Character
        | Word::Text
        | Word::Quote
        | Word::True
        | Word::False
        | Word::Nil => operand(&[], more),
        Word::Identifier => operand(&[Wanted::BehindName], more),
        Word::SelfWord | Word::Time | Word::Undefined | Word::Result => operand(&[], more),
        Word::OpenRound => operand(&[Wanted::Expression, Wanted::CloseRound], more),
        Word::OpenCurly => operand(&[Wanted::InCurly], more),
        Word::OpenSquare => operand(&[Wanted::InSquare], more),
        _ => made(word, more),
    }
}

/// What makes a value of several ones, or tests one; what reaches far.
fn made(word: Word, more: &'static [Wanted]) -> Option<Turn>
    ensures { turn_views result ≡ turns.then_wanted (operands.made word) more.now }
{
    match word {
        Word::MakeTuple => operand(
            &[
                Wanted::OpenRound,
                Wanted::Expression,
                Wanted::Comma,
                Wanted::Expression,
                Wanted::MoreExpressions,
                Wanted::CloseRound,
            ],
            more,
        ),
        Word::MakeToken => operand(
            &[Wanted::OpenRound, Wanted::Expression, Wanted::CloseRound],
            more,
        ),
        Word::MakeNamed => operand(
            &[Wanted::BehindClass, Wanted::OpenRound, Wanted::Parts],
            more,
        ),
        Word::IsType => operand(
            &[
                Wanted::OpenRound,
                Wanted::Expression,
                Wanted::Comma,
                Wanted::WholeType,
                Wanted::CloseRound,
            ],
            more,
        ),
        Word::IsNamed => operand(
            &[
                Wanted::BehindClass,
                Wanted::OpenRound,
                Wanted::Expression,
                Wanted::CloseRound,
            ],
            more,
        ),
        Word::IsBasic(_) => operand(
            &[Wanted::OpenRound, Wanted::Expression, Wanted::CloseRound],
            more,
        ),
        Word::Modify => operand(
            &[
                Wanted::OpenRound,
                Wanted::Expression,
                Wanted::Comma,
                Wanted::Identifier,
                Wanted::MapsTo,
                Wanted::Expression,
                Wanted::MoreChanges,
                Wanted::CloseRound,
            ],
            more,
        ),
        Word::New => operand(
            &[Wanted::Identifier, Wanted::OpenRound, Wanted::Parts],
            more,
        ),
        Word::IsOfClass | Word::IsOfBaseClass => operand(
            &[
                Wanted::OpenRound,
                Wanted::Identifier,
                Wanted::Comma,
                Wanted::Expression,
                Wanted::CloseRound,
            ],
            more,
        ),
        Word::SameClass | Word::SameBaseClass => operand(
            &[
                Wanted::OpenRound,
                Wanted::Expression,
                Wanted::Comma,
                Wanted::Expression,
                Wanted::CloseRound,
            ],
            more,
        ),
        Word::Counter(_) => operand(
            &[
                Wanted::OpenRound,
                Wanted::Identifier,
                Wanted::MoreNames,
                Wanted::CloseRound,
            ],
            more,
        ),
        _ => reaching(word, more),
    }
}

/// What reaches as far to the right as it can. `cases` has an end of its own.
fn reaching(word: Word, more: &'static [Wanted]) -> Option<Turn>
    ensures { turn_views result ≡ turns.then_wanted (operands.reaching word) more.now }
{
    match word {
        Word::Let => far(&[Wanted::Pattern, Wanted::BehindLet], more),
        Word::Def => far(
            &[
                Wanted::Pattern,
                Wanted::Equals,
                Wanted::Expression,
                Wanted::InOfDef,
                Wanted::Expression,
            ],
            more,
        ),
        Word::If => far(
            &[
                Wanted::Expression,
                Wanted::Then,
                Wanted::Expression,
                Wanted::Otherwise,
            ],
            more,
        ),
        Word::Cases => operand(
            &[
                Wanted::Expression,
                Wanted::Colon,
                Wanted::Pattern,
                Wanted::BehindCase,
                Wanted::MoreCases,
            ],
            more,
        ),
        Word::Forall | Word::Exists => far(
            &[
                Wanted::Pattern,
                Wanted::BehindBound,
                Wanted::MoreBinds,
                Wanted::Ampersand,
                Wanted::Expression,
            ],
            more,
        ),
        Word::ExistsOne => far(
            &[
                Wanted::Pattern,
                Wanted::BehindBound,
                Wanted::Ampersand,
                Wanted::Expression,
            ],
            more,
        ),
        Word::Iota => far(
            &[
                Wanted::Pattern,
                Wanted::BehindOnlyBound,
                Wanted::Ampersand,
                Wanted::Expression,
            ],
            more,
        ),
        _ => None,
    }
}

/// A postfix of these parts.
fn postfix(parts: &'static [Wanted]) -> Option<Turn>
    ensures { turn_views result ≡ operands.postfix parts.now }
{
    Some(Turn::Joins {
        left: POSTFIX_PULL,
        right: 0,
        parts,
        behind: &[Wanted::BehindOperand],
    })
}

/// An infix operator and an operand, or a postfix.
pub(crate) fn behind_operand(word: Word) -> Option<Turn>
    ensures { turn_views result ≡ operands.behind_operand word }
{
    match word {
        Word::Operator(sign) => between_operands(sign),
        Word::OpenRound => postfix(&[Wanted::Arguments]),
        Word::Dot => postfix(&[Wanted::Identifier, Wanted::BehindClass]),
        Word::DotNumber => postfix(&[Wanted::Whole]),
        _ => None,
    }
}

/// A backquote and a name, or `~`.
pub(crate) fn behind_name(word: Word) -> Option<Turn>
    ensures { turn_views result ≡ operands.behind_name word }
{
    match word {
        Word::Backquote => own(&[Wanted::Identifier]),
        Word::Tilde => own(&[]),
        _ => None,
    }
}

/// A backquote and a name.
pub(crate) fn behind_class(word: Word) -> Option<Turn>
    ensures { turn_views result ≡ operands.behind_class word }
{
    match word {
        Word::Backquote => own(&[Wanted::Identifier]),
        _ => None,
    }
}

/// The expressions of a record or of a new object, and their `)`.
pub(crate) fn parts(word: Word) -> Option<Turn>
    ensures { turn_views result ≡ operands.parts word }
{
    match word {
        Word::CloseRound => own(&[]),
        _ => expression(word, &[Wanted::MoreExpressions, Wanted::CloseRound]),
    }
}

/// `,` and an expression.
pub(crate) fn more_expressions(word: Word) -> Option<Turn>
    ensures { turn_views result ≡ operands.more_expressions word }
{
    match word {
        Word::Comma => own(&[Wanted::Expression, Wanted::MoreExpressions]),
        _ => None,
    }
}
