// Statements round other statements.

ghost use Rattle.std.specs.Prelude.{◌≡◌, map, option_map};
ghost use Rattle.abstract_syntax.specs.Statements.{let_then, let_be_then, def_then, if_then, cases_then, while_do, for_numbers, for_set, for_sequence, trap_exit, trap_exits, always_after};
ghost use Rattle.expr_tree.specs.View.{view_of, boxed_view, pattern_view, bind_view, defined_view, defined_trees};
ghost use Rattle.vdm_tree.specs.StmtView.{stmt_view, maybe_stmt, stmt_branch_view, stmt_branch_trees, stmt_case_view, stmt_case_trees, handler_view, handler_trees};

use crate::stmt::{Handler, Stmt, StmtBranch, StmtCase};
use expr_tree::{Bind, Defined, Expr, Pattern};
use vdm_kinds::{Name, Place};

impl Stmt {
    /// `let definitions in body`
    pub fn let_in(definitions: Vec<Defined>, body: Box<Stmt>, place: Place) -> Stmt
        ensures { stmt_view result ≡ let_then (defined_trees (map defined_view definitions.items)) (stmt_view body.value) place }
    {
        Stmt::Let(definitions, body, place)
    }

    /// `let bind be st condition in body`
    pub fn let_be(
        bind: Box<Bind>,
        condition: Option<Box<Expr>>,
        body: Box<Stmt>,
        place: Place,
    ) -> Stmt
        ensures { stmt_view result ≡ let_be_then (bind_view bind.value) (option_map boxed_view condition) (stmt_view body.value) place }
    {
        Stmt::LetBe(bind, condition, body, place)
    }

    /// `def pattern = value in body`
    pub fn def_in(pattern: Box<Pattern>, value: Box<Expr>, body: Box<Stmt>, place: Place) -> Stmt
        ensures { stmt_view result ≡ def_then (pattern_view pattern.value) (view_of value.value) (stmt_view body.value) place }
    {
        Stmt::Def(pattern, value, body, place)
    }

    /// `if condition then body elseifs else otherwise`
    pub fn if_else(
        condition: Box<Expr>,
        body: Box<Stmt>,
        elseifs: Vec<StmtBranch>,
        otherwise: Option<Box<Stmt>>,
        place: Place,
    ) -> Stmt
        ensures { stmt_view result ≡ if_then (view_of condition.value) (stmt_view body.value) (stmt_branch_trees (map stmt_branch_view elseifs.items)) (maybe_stmt otherwise) place }
    {
        Stmt::If(condition, body, elseifs, otherwise, place)
    }

    /// `cases subject: cases, others -> others end`
    pub fn cases(
        subject: Box<Expr>,
        cases: Vec<StmtCase>,
        others: Option<Box<Stmt>>,
        place: Place,
    ) -> Stmt
        ensures { stmt_view result ≡ cases_then (view_of subject.value) (stmt_case_trees (map stmt_case_view cases.items)) (maybe_stmt others) place }
    {
        Stmt::Cases(subject, cases, others, place)
    }

    /// `while condition do body`
    pub fn while_do(condition: Box<Expr>, body: Box<Stmt>, place: Place) -> Stmt
        ensures { stmt_view result ≡ while_do (view_of condition.value) (stmt_view body.value) place }
    {
        Stmt::While(condition, body, place)
    }

    /// `for name = first to last by step do body`, where the name stands at `name_place`.
    pub fn for_numbers(
        name: Name,
        name_place: Place,
        first: Box<Expr>,
        last: Box<Expr>,
        step: Option<Box<Expr>>,
        body: Box<Stmt>,
        place: Place,
    ) -> Stmt
        ensures { stmt_view result ≡ for_numbers name name_place (view_of first.value) (view_of last.value) (option_map boxed_view step) (stmt_view body.value) place }
    {
        Stmt::ForNumbers(name, name_place, first, last, step, body, place)
    }

    /// `for all pattern in set set do body`
    pub fn for_set(pattern: Box<Pattern>, set: Box<Expr>, body: Box<Stmt>, place: Place) -> Stmt
        ensures { stmt_view result ≡ for_set (pattern_view pattern.value) (view_of set.value) (stmt_view body.value) place }
    {
        Stmt::ForSet(pattern, set, body, place)
    }

    /// `for pattern in sequence do body`
    pub fn for_sequence(
        pattern: Box<Pattern>,
        sequence: Box<Expr>,
        body: Box<Stmt>,
        place: Place,
    ) -> Stmt
        ensures { stmt_view result ≡ for_sequence (pattern_view pattern.value) (view_of sequence.value) (stmt_view body.value) place }
    {
        Stmt::ForSequence(pattern, sequence, body, place)
    }

    /// `trap pattern with handler in body`
    pub fn trap(pattern: Box<Pattern>, handler: Box<Stmt>, body: Box<Stmt>, place: Place) -> Stmt
        ensures { stmt_view result ≡ trap_exit (pattern_view pattern.value) (stmt_view handler.value) (stmt_view body.value) place }
    {
        Stmt::Trap(pattern, handler, body, place)
    }

    /// `tixe {handlers} in body`
    pub fn tixe(handlers: Vec<Handler>, body: Box<Stmt>, place: Place) -> Stmt
        ensures { stmt_view result ≡ trap_exits (handler_trees (map handler_view handlers.items)) (stmt_view body.value) place }
    {
        Stmt::Tixe(handlers, body, place)
    }

    /// `always last in body`
    pub fn always(last: Box<Stmt>, body: Box<Stmt>, place: Place) -> Stmt
        ensures { stmt_view result ≡ always_after (stmt_view last.value) (stmt_view body.value) place }
    {
        Stmt::Always(last, body, place)
    }
}
