// Where a statement is wanted.

ghost use Rattle.std.specs.Prelude.{◌≡◌};
ghost use Rattle.stmt_fronts.specs.Statements as statements;
ghost use Rattle.stmt_fronts.specs.Turns.{then_wanted};
ghost use Rattle.stmt_tables.specs.View.{ways_view};

use crate::calls::call;
use crate::names::{
    BEHIND_CLASS, CLOSE_ROUND, COLON, EQUALS, EXPRESSION, IN_WORD, LOCAL_TYPE, MAPS_TO, OPEN_ROUND,
    PATTERN,
};
use crate::ways::{Ways, at_most, begins, either, node};
use grammar_fronts::Wanted;
use grammar_words::Word;
use stmt_fronts::Expected;

/// The rest of an assignment that begins with a name.
const ASSIGNMENT: &[Expected] = &[
    BEHIND_CLASS,
    Expected::TargetSteps,
    Expected::Becomes,
    EXPRESSION,
];

const ATOMIC: &[Expected] = &[
    OPEN_ROUND,
    Expected::Target,
    Expected::Becomes,
    EXPRESSION,
    Expected::MoreAssignments,
    CLOSE_ROUND,
];

/// `let` and local definitions.
const LET_LOCALS: &[Expected] = &[
    PATTERN,
    LOCAL_TYPE,
    EQUALS,
    EXPRESSION,
    Expected::Within(Wanted::MoreLocals),
    IN_WORD,
    Expected::Statement,
];

/// `let` and a bind.
const LET_BIND: &[Expected] = &[
    PATTERN,
    Expected::Within(Wanted::BehindBound),
    Expected::Within(Wanted::SuchThat),
    IN_WORD,
    Expected::Statement,
];

const DEF: &[Expected] = &[
    PATTERN,
    EQUALS,
    EXPRESSION,
    Expected::Within(Wanted::InOfDef),
    Expected::Statement,
];

const IF: &[Expected] = &[
    EXPRESSION,
    Expected::Within(Wanted::Then),
    Expected::Statement,
    Expected::Otherwise,
];

const CASES: &[Expected] = &[
    EXPRESSION,
    COLON,
    PATTERN,
    Expected::BehindCase,
    Expected::MoreCases,
];

const TRAP: &[Expected] = &[
    PATTERN,
    Expected::With,
    Expected::Statement,
    IN_WORD,
    Expected::Statement,
];

const TIXE: &[Expected] = &[
    Expected::OpenCurly,
    PATTERN,
    MAPS_TO,
    Expected::Statement,
    Expected::MoreHandlers,
    Expected::Within(Wanted::CloseCurly),
    IN_WORD,
    Expected::Statement,
];

const PARALLEL: &[Expected] = &[
    OPEN_ROUND,
    Expected::Statement,
    Expected::MoreParallel,
    CLOSE_ROUND,
];

/// What begins a statement.
#[tactic(auto, using(crate::proofs::Wanting::nothing_more))]
pub(crate) fn statement(word: Word) -> Ways
    ensures { ways_view result ≡ statements.statement word }
{
    statement_then(word, &[])
}

/// What begins a statement, and what is wanted behind it. A name begins an assignment or a call, a `(` a block or the
/// bracketed head of a call.
pub(crate) fn statement_then(word: Word, behind: &'static [Expected]) -> Ways
    ensures { ways_view result ≡ then_wanted (statements.statement word) behind.now }
{
    match word {
        Word::OpenRound => either(begins(&[Expected::InBlock], behind), call(word, behind)),
        Word::Identifier => either(begins(ASSIGNMENT, behind), call(word, behind)),
        Word::Let => Ways::Two(begins(LET_LOCALS, behind), begins(LET_BIND, behind)),
        Word::Atomic => node(ATOMIC, behind),
        Word::Return | Word::Exit => node(&[Expected::Value], behind),
        Word::Def => node(DEF, behind),
        Word::If => node(IF, behind),
        Word::Cases => node(CASES, behind),
        Word::While => node(&[EXPRESSION, Expected::Do, Expected::Statement], behind),
        Word::For => node(&[Expected::Loop, Expected::Do, Expected::Statement], behind),
        Word::Trap => node(TRAP, behind),
        Word::Tixe => node(TIXE, behind),
        Word::Always => node(&[Expected::Statement, IN_WORD, Expected::Statement], behind),
        Word::DoubleBar => node(PARALLEL, behind),
        Word::Start | Word::StartList => node(&[OPEN_ROUND, EXPRESSION, CLOSE_ROUND], behind),
        Word::Skip | Word::Error => node(&[], behind),
        _ => at_most(call(word, behind)),
    }
}
