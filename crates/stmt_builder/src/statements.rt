// Statements, and the statements in them. These functions call one another.

ghost use Rattle.std.specs.Prelude.{◌≡◌};
ghost use Rattle.grammar_words.specs.declared.word.Word.TheVariants as word_is;
ghost use Rattle.expr_tree.specs.View.{boxed_view};
ghost use Rattle.vdm_tree.specs.StmtView.{boxed_stmt, maybe_stmt};
ghost use Rattle.stmt_reading.specs.Leaves.{list_in};
ghost use Rattle.stmt_reading.specs.Statements.{branches_in, cases_in, else_in, handler_in, stmt_in};
ghost use Rattle.leaf_reader.specs.Reads.{Reads};
ghost use Rattle.stmt_parts.specs.Lists.{one_added};
ghost use Rattle.stmt_openings.specs.Between.{stmts_in, two_in};
ghost use Rattle.stmt_openings.specs.Openings.{opened};
ghost use Rattle.stmt_builder.specs.Lists.{alternative_in, branches_view, case_added, case_rows, cases_view, handlers_view, if_behind, last_in, stmts_view, tixe_behind, two_view};

use crate::finished::{
    always_of, block_of, cases_of, if_of, parallel_of, push_branch, push_case, push_handler,
    push_stmt, tixe_of, trap_of,
};
use crate::found::{Cases, Two};
use expr_tree::Expr;
use grammar_words::Word;
use leaf_reader::{NO_TREE, NoTree, Source};
use std::alloc::Global;
use stmt_openings::{
    AfterCase, Opening, behind_case, branch_opening, case_opening, closes, handler_opening,
    read_opening,
};
use vdm_kinds::{Halt, Place};
use vdm_tree::{Handler, Stmt, StmtBranch, StmtCase};

/// A statement in which at most so many are nested.
#[cycle(statement)]
pub(crate) fn statement(
    alloc: Global,
    source: &mut Source,
    room: u32,
) -> Result<Box<Stmt>, Halt<NoTree>>
    ensures { Reads result boxed_stmt (stmt_in room source.old) source.new }
{
    let room = room.checked_sub(1).ok_or(NO_TREE)?;
    let opening = read_opening(alloc, source)?;
    rest(alloc, source, room, opening)
}

/// The statement that begins so, whose statements have at most so many nested in them.
#[cycle(statement)]
fn rest(
    alloc: Global,
    source: &mut Source,
    room: u32,
    opening: Opening,
) -> Result<Box<Stmt>, Halt<NoTree>>
    ensures { Reads result boxed_stmt (opened (stmt_in room) opening source.old) source.new }
{
    match opening {
        Opening::Whole(statement) => Ok(statement),
        Opening::Body(header) => {
            let body = statement(alloc, source, room)?;
            Ok(header.made(alloc, body)?)
        }
        Opening::Block(turns, locals, place) => {
            let found = statements(alloc, source, room, turns)?;
            Ok(block_of(alloc, locals, found, place)?)
        }
        Opening::If(turns, condition, place) => {
            if_rest(alloc, source, room, turns, condition, place)
        }
        Opening::Cases(turns, subject, place) => {
            let found = cases(alloc, source, room, turns)?;
            Ok(cases_of(alloc, subject, found, place)?)
        }
        Opening::Trap(pattern, place) => {
            let both = two(alloc, source, room)?;
            Ok(trap_of(alloc, pattern, both, place)?)
        }
        Opening::Tixe(place) => tixe_rest(alloc, source, room, place),
        Opening::Always(place) => {
            let both = two(alloc, source, room)?;
            Ok(always_of(alloc, both, place)?)
        }
        Opening::Parallel(place) => {
            let found = listed(alloc, source, room)?;
            source.word(Word::CloseRound)?;
            Ok(parallel_of(alloc, found, place)?)
        }
    }
}

/// One statement more.
#[cycle(statement)]
fn push(
    alloc: Global,
    source: &mut Source,
    room: u32,
    statements: &mut Vec<Stmt>,
) -> Result<(), Halt<NoTree>>
    ensures { Reads result (λ _. stmts_view statements.new) (one_added (stmts_view statements.old) (stmt_in room source.old)) source.new }
{
    let next = statement(alloc, source, room)?;
    Ok(push_stmt(statements, next)?)
}

/// The statements of a block, and its `)`.
#[cycle(statement)]
fn statements(
    alloc: Global,
    source: &mut Source,
    room: u32,
    turns: usize,
) -> Result<Vec<Stmt>, Halt<NoTree>>
    ensures { Reads result stmts_view (stmts_in (stmt_in room) turns source.old) source.new }
{
    let mut statements = Vec::new(alloc);
    push(alloc, source, room, &mut statements)?;
    for _turn in 0..turns {
        let closed = closes(source)?;
        if closed {
            return Ok(statements);
        }
        push(alloc, source, room, &mut statements)?;
    }
    Err(NO_TREE)
}

/// Statements with a comma between each two.
#[cycle(statement)]
fn listed(alloc: Global, source: &mut Source, room: u32) -> Result<Vec<Stmt>, Halt<NoTree>>
    ensures { Reads result stmts_view (list_in word_is.Comma (stmt_in room) source.old) source.new }
{
    let turns = source.len() + 1;
    let mut statements = Vec::new(alloc);
    push(alloc, source, room, &mut statements)?;
    for _turn in 0..turns {
        let Some(_place) = source.take_word(Word::Comma) else {
            return Ok(statements);
        };
        push(alloc, source, room, &mut statements)?;
    }
    Err(NO_TREE)
}

/// What stands behind `if c then`.
#[cycle(statement)]
fn if_rest(
    alloc: Global,
    source: &mut Source,
    room: u32,
    turns: usize,
    condition: Box<Expr>,
    place: Place,
) -> Result<Box<Stmt>, Halt<NoTree>>
    ensures { Reads result boxed_stmt (if_behind (stmt_in room) turns (boxed_view condition) place source.old) source.new }
{
    let body = statement(alloc, source, room)?;
    let elseifs = branches(alloc, source, room, turns)?;
    let otherwise = otherwise(alloc, source, room)?;
    Ok(if_of(alloc, condition, body, elseifs, otherwise, place)?)
}

/// Each `elseif`.
#[cycle(statement)]
fn branches(
    alloc: Global,
    source: &mut Source,
    room: u32,
    turns: usize,
) -> Result<Vec<StmtBranch>, Halt<NoTree>>
    ensures { Reads result branches_view (branches_in (stmt_in room) turns source.old) source.new }
{
    let mut branches = Vec::new(alloc);
    for _turn in 0..turns {
        let found = branch_opening(alloc, source)?;
        let Some(condition) = found else {
            return Ok(branches);
        };
        let body = statement(alloc, source, room)?;
        push_branch(&mut branches, condition, body)?;
    }
    Err(NO_TREE)
}

/// The statement behind `else`, where the word comes next.
#[cycle(statement)]
fn otherwise(
    alloc: Global,
    source: &mut Source,
    room: u32,
) -> Result<Option<Box<Stmt>>, Halt<NoTree>>
    ensures { Reads result maybe_stmt (else_in (stmt_in room) source.old) source.new }
{
    match source.take_word(Word::Else) {
        Some(_place) => Ok(Some(statement(alloc, source, room)?)),
        None => Ok(None),
    }
}

/// `s in t`
#[cycle(statement)]
fn two(alloc: Global, source: &mut Source, room: u32) -> Result<Two, Halt<NoTree>>
    ensures { Reads result two_view (two_in (stmt_in room) source.old) source.new }
{
    let first = statement(alloc, source, room)?;
    source.word(Word::In)?;
    let second = statement(alloc, source, room)?;
    Ok(Two { first, second })
}

/// Each alternative of `cases`, what stands behind `others`, and `end`.
#[cycle(statement)]
fn cases(alloc: Global, source: &mut Source, room: u32, turns: usize) -> Result<Cases, Halt<NoTree>>
    ensures { Reads result cases_view (cases_in (stmt_in room) turns source.old) source.new }
{
    let mut cases = Vec::new(alloc);
    for _turn in 0..turns {
        let after = push_alternative(alloc, source, room, &mut cases)?;
        match after {
            AfterCase::Ends => return Ok(Cases {
                cases,
                others: None,
            }),
            AfterCase::Others => {
                let others = last(alloc, source, room)?;
                return Ok(Cases {
                    cases,
                    others: Some(others),
                });
            }
            AfterCase::Goes => {}
        }
    }
    Err(NO_TREE)
}

/// One alternative of `cases` more, and what stands behind it.
#[cycle(statement)]
fn push_alternative(
    alloc: Global,
    source: &mut Source,
    room: u32,
    cases: &mut Vec<StmtCase>,
) -> Result<AfterCase, Halt<NoTree>>
    ensures { Reads result (λ after. (case_rows cases.new, after)) (case_added (case_rows cases.old) (alternative_in (stmt_in room) source.old)) source.new }
{
    let patterns = case_opening(alloc, source)?;
    let body = statement(alloc, source, room)?;
    push_case(cases, patterns, body)?;
    behind_case(source)
}

/// The statement behind `others ->`, and `end`.
#[cycle(statement)]
fn last(alloc: Global, source: &mut Source, room: u32) -> Result<Box<Stmt>, Halt<NoTree>>
    ensures { Reads result boxed_stmt (last_in (stmt_in room) source.old) source.new }
{
    let others = statement(alloc, source, room)?;
    source.word(Word::End)?;
    Ok(others)
}

/// One alternative of `tixe` more.
#[cycle(statement)]
fn push_trap(
    alloc: Global,
    source: &mut Source,
    room: u32,
    handlers: &mut Vec<Handler>,
) -> Result<(), Halt<NoTree>>
    ensures { Reads result (λ _. handlers_view handlers.new) (one_added (handlers_view handlers.old) (handler_in (stmt_in room) source.old)) source.new }
{
    let pattern = handler_opening(alloc, source)?;
    let body = statement(alloc, source, room)?;
    Ok(push_handler(handlers, pattern, body)?)
}

/// Each alternative of `tixe`.
#[cycle(statement)]
fn handlers(alloc: Global, source: &mut Source, room: u32) -> Result<Vec<Handler>, Halt<NoTree>>
    ensures { Reads result handlers_view (list_in word_is.Comma (handler_in (stmt_in room)) source.old) source.new }
{
    let turns = source.len() + 1;
    let mut handlers = Vec::new(alloc);
    push_trap(alloc, source, room, &mut handlers)?;
    for _turn in 0..turns {
        let Some(_place) = source.take_word(Word::Comma) else {
            return Ok(handlers);
        };
        push_trap(alloc, source, room, &mut handlers)?;
    }
    Err(NO_TREE)
}

/// What stands behind `tixe {`.
#[cycle(statement)]
fn tixe_rest(
    alloc: Global,
    source: &mut Source,
    room: u32,
    place: Place,
) -> Result<Box<Stmt>, Halt<NoTree>>
    ensures { Reads result boxed_stmt (tixe_behind (stmt_in room) place source.old) source.new }
{
    let traps = handlers(alloc, source, room)?;
    source.word(Word::CloseCurly)?;
    source.word(Word::In)?;
    let body = statement(alloc, source, room)?;
    Ok(tixe_of(alloc, traps, body, place)?)
}
