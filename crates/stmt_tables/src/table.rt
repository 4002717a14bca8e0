// What may come where something is wanted.

ghost use Rattle.std.specs.Prelude.{◌≡◌, false, MatchOption};
ghost use Rattle.stmt_fronts.specs.Table as table;
ghost use Rattle.stmt_tables.specs.Topics.{is_of_statements, is_of_definitions};
ghost use Rattle.stmt_tables.specs.View.{ways_view};

use crate::ways::{Ways, within};
use crate::{calls, classes, definitions, parts, statements, words};
use front_tables::{is_left_out_at as is_inner_left_out_at, is_optional as is_inner_optional};
use grammar_words::Word;
use stmt_fronts::Expected;

/// The ways in which the word is taken, in order.
pub fn turns_of(expected: Expected, word: Word) -> Ways
    ensures { ways_view result ≡ table.turns expected word }
{
    match of_statements(expected, word) {
        Some(ways) => ways,
        None => match of_definitions(expected, word) {
            Some(ways) => ways,
            None => of_others(expected, word),
        },
    }
}

/// The same where a statement, or a part of one, is wanted.
fn of_statements(expected: Expected, word: Word) -> Option<Ways>
    ensures { MatchOption result (is_of_statements expected ≡ false) (λ ways. ways_view ways ≡ table.turns expected word) }
{
    let ways = match expected {
        Expected::Statement => statements::statement(word),
        Expected::InBlock => parts::in_block(word),
        Expected::BehindStatement => parts::behind_statement(word),
        Expected::StatementOrClose => parts::statement_or_close(word),
        Expected::Initial => parts::initial(word),
        Expected::MoreVariables => parts::more_variables(word),
        Expected::Target => parts::target(word),
        Expected::TargetSteps => parts::target_steps(word),
        Expected::MoreAssignments => parts::more_assignments(word),
        Expected::Value => parts::value(word),
        Expected::Otherwise => parts::otherwise(word),
        Expected::BehindCase => parts::behind_case(word),
        Expected::MoreCases => parts::more_cases(word),
        Expected::NextCase => parts::next_case(word),
        Expected::Loop => parts::after_for(word),
        Expected::InSetOfLoop => parts::in_set_of_loop(word),
        Expected::Step => parts::step(word),
        Expected::MoreHandlers => parts::more_handlers(word),
        Expected::MoreParallel => parts::more_parallel(word),
        Expected::Call => calls::call_goes_on(word),
        Expected::Called => calls::call_goes_on(word),
        _ => return None,
    };
    Some(ways)
}

/// The same where a definition, or a part of one, is wanted.
fn of_definitions(expected: Expected, word: Word) -> Option<Ways>
    ensures { MatchOption result (is_of_definitions expected ≡ false) (λ ways. ways_view ways ≡ table.turns expected word) }
{
    let ways = match expected {
        Expected::LevelOrName => definitions::level_or_name(word),
        Expected::StaticOrName => definitions::static_or_name(word),
        Expected::DefinedName => definitions::name(word),
        Expected::DefinedNameAgain => definitions::name(word),
        Expected::TypeDefs => definitions::type_defs(word),
        Expected::MoreTypeDefs => definitions::more_type_defs(word),
        Expected::TypeBody => definitions::type_body(word),
        Expected::Fields => definitions::fields(word),
        Expected::Invariant => definitions::invariant(word),
        Expected::ValueDefs => definitions::value_defs(word),
        Expected::MoreValueDefs => definitions::more_value_defs(word),
        Expected::VariableItems => definitions::variable_items(word),
        Expected::MoreVariableItems => definitions::more_variable_items(word),
        Expected::FunctionDefs => definitions::function_defs(word),
        Expected::MoreFunctionDefs => definitions::more_function_defs(word),
        Expected::OperationDefs => definitions::operation_defs(word),
        Expected::MoreOperationDefs => definitions::more_operation_defs(word),
        Expected::TypeOrNone => definitions::type_or_none(word),
        Expected::FunctionArrow => definitions::function_arrow(word),
        Expected::FunctionBody => definitions::function_body(word),
        Expected::OperationBody => definitions::operation_body(word),
        Expected::BehindIs => definitions::behind_is(word),
        Expected::Pre => definitions::pre(word),
        Expected::Post => definitions::post(word),
        Expected::Measure => definitions::measure(word),
        _ => return None,
    };
    Some(ways)
}

/// The same where something else is wanted: a class or a block, what is wanted in a type, a pattern or an expression, or one
/// word alone.
fn of_others(expected: Expected, word: Word) -> Ways
    requires no_statement { is_of_statements expected ≡ false }
    requires no_definition { is_of_definitions expected ≡ false }
    ensures { ways_view result ≡ table.turns expected word }
{
    match expected {
        Expected::Within(wanted) => within(wanted, word),
        Expected::ThreadBody => classes::thread_body(word),
        Expected::PhaseOrClose => classes::phase_or_close(word),
        Expected::LastSemicolon => classes::last_semicolon(word),
        Expected::SyncClauses => classes::sync_clauses(word),
        Expected::MoreSyncClauses => classes::more_sync_clauses(word),
        Expected::MutexNames => classes::mutex_names(word),
        Expected::Classes => classes::classes(word),
        Expected::ClassName => definitions::name(word),
        Expected::ClassNameAgain => definitions::name(word),
        Expected::Superclasses => classes::superclasses(word),
        Expected::Blocks => classes::blocks(word),
        _ => words::alone(expected, word),
    }
}

/// Whether it need not come.
pub fn is_optional(expected: Expected) -> bool
    ensures { result ≡ table.is_optional expected }
{
    match expected {
        Expected::Within(wanted) => is_inner_optional(wanted),
        Expected::Initial
        | Expected::MoreVariables
        | Expected::TargetSteps
        | Expected::MoreAssignments
        | Expected::Value
        | Expected::Otherwise
        | Expected::Step
        | Expected::MoreHandlers
        | Expected::MoreParallel
        | Expected::Called => true,
        Expected::TypeDefs
        | Expected::MoreTypeDefs
        | Expected::Fields
        | Expected::Invariant
        | Expected::ValueDefs
        | Expected::MoreValueDefs
        | Expected::VariableItems
        | Expected::MoreVariableItems
        | Expected::FunctionDefs
        | Expected::MoreFunctionDefs
        | Expected::OperationDefs
        | Expected::MoreOperationDefs
        | Expected::Pre
        | Expected::Post
        | Expected::Measure => true,
        Expected::LastSemicolon
        | Expected::SyncClauses
        | Expected::MoreSyncClauses
        | Expected::Classes
        | Expected::Superclasses
        | Expected::Blocks => true,
        _ => false,
    }
}

/// Whether the word there is of a form that the profile leaves out.
pub fn is_left_out_at(expected: Expected, word: Word) -> bool
    ensures { result ≡ table.is_left_out_at expected word }
{
    match expected {
        Expected::Within(wanted) => is_inner_left_out_at(wanted, word),
        Expected::Statement
        | Expected::InBlock
        | Expected::StatementOrClose
        | Expected::OperationBody
        | Expected::ThreadBody => matches!(word, Word::OpenSquare),
        Expected::Fields => words::begins_type(word),
        Expected::Defined => matches!(word, Word::OpenRound),
        Expected::DefinedNameAgain => matches!(word, Word::Pre | Word::Post),
        _ => false,
    }
}
