// Statements.

ghost use Rattle.std.specs.Prelude.{◌≡◌, map, option_map};
ghost use Rattle.abstract_syntax.specs.Statements.{block, assign, assign_together, call, returns, exits, in_parallel, start_thread, start_threads};
ghost use Rattle.expr_tree.specs.View.{view_of, boxed_view, pattern_view, pattern_views};
ghost use Rattle.vdm_tree.specs.StmtView.{stmt_view, stmt_trees, stmt_views, target_view, assignment_view, dcl_view, stmt_branch_view, stmt_case_view, handler_view};

use crate::dcl::Dcl;
use crate::target::{Assignment, Target};
use expr_tree::{Bind, Defined, Expr, Pattern};
use vdm_kinds::{Name, Place};

/// A statement, at the place of its first token.
#[cycle(statement)]
pub enum Stmt {
    /// A block in brackets: its local variables, then its statements.
    Block(Vec<Dcl>, Vec<Stmt>, Place),
    /// An assignment of a value to a target.
    Assign(Target, Box<Expr>, Place),
    /// `atomic(t := a; u := b)`
    AssignTogether(Vec<Assignment>, Place),
    /// A call, which is an application.
    Call(Box<Expr>, Place),
    /// A return, with a value or without.
    Return(Option<Box<Expr>>, Place),
    /// An exit, with a value or without.
    Exit(Option<Box<Expr>>, Place),
    /// `let p : T = a, q = b in s`
    Let(Vec<Defined>, Box<Stmt>, Place),
    /// `let x in set S be st p in s`
    LetBe(Box<Bind>, Option<Box<Expr>>, Box<Stmt>, Place),
    /// `def p = a in s`
    Def(Box<Pattern>, Box<Expr>, Box<Stmt>, Place),
    /// `if c then s elseif d then t else u`: the condition, the statement, those of each `elseif`, and the statement behind
    /// `else`.
    If(Box<Expr>, Box<Stmt>, Vec<StmtBranch>, Option<Box<Stmt>>, Place),
    /// `cases e: p, q -> s, others -> t end`
    Cases(Box<Expr>, Vec<StmtCase>, Option<Box<Stmt>>, Place),
    /// `while c do s`
    While(Box<Expr>, Box<Stmt>, Place),
    /// `for i = a to b by c do s`: the name, and where it stands.
    ForNumbers(Name, Place, Box<Expr>, Box<Expr>, Option<Box<Expr>>, Box<Stmt>, Place),
    /// `for all p in set S do s`
    ForSet(Box<Pattern>, Box<Expr>, Box<Stmt>, Place),
    /// `for p in q do s`
    ForSequence(Box<Pattern>, Box<Expr>, Box<Stmt>, Place),
    /// `trap p with s in t`
    Trap(Box<Pattern>, Box<Stmt>, Box<Stmt>, Place),
    /// `tixe {p |-> s, q |-> t} in u`
    Tixe(Vec<Handler>, Box<Stmt>, Place),
    /// `always s in t`
    Always(Box<Stmt>, Box<Stmt>, Place),
    /// `|| (s, t)`
    Parallel(Vec<Stmt>, Place),
    /// `start(e)`
    Start(Box<Expr>, Place),
    /// `startlist(e)`
    StartList(Box<Expr>, Place),
    /// `skip`
    Skip(Place),
    /// `error`
    Error(Place),
}

// A derived drop would be proved again, at a minute and more, in each crate that drops a tree.
impl Drop for Stmt {
    #[cycle(statement)]
    fn drop(self) {
        match self {
            Stmt::Block(_a, _b, _c) => {}
            Stmt::Assign(_a, _b, _c) => {}
            Stmt::AssignTogether(_a, _b) => {}
            Stmt::Call(_a, _b) => {}
            Stmt::Return(_a, _b) => {}
            Stmt::Exit(_a, _b) => {}
            Stmt::Let(_a, _b, _c) => {}
            Stmt::LetBe(_a, _b, _c, _d) => {}
            Stmt::Def(_a, _b, _c, _d) => {}
            Stmt::If(_a, _b, _c, _d, _e) => {}
            Stmt::Cases(_a, _b, _c, _d) => {}
            Stmt::While(_a, _b, _c) => {}
            Stmt::ForNumbers(_a, _b, _c, _d, _e, _f, _g) => {}
            Stmt::ForSet(_a, _b, _c, _d) => {}
            Stmt::ForSequence(_a, _b, _c, _d) => {}
            Stmt::Trap(_a, _b, _c, _d) => {}
            Stmt::Tixe(_a, _b, _c) => {}
            Stmt::Always(_a, _b, _c) => {}
            Stmt::Parallel(_a, _b) => {}
            Stmt::Start(_a, _b) => {}
            Stmt::StartList(_a, _b) => {}
            Stmt::Skip(_a) => {}
            Stmt::Error(_a) => {}
        }
    }
}

/// `elseif c then s`
#[cycle(statement)]
#[derive(Drop)]
pub struct StmtBranch {
    pub condition: Box<Expr>,
    pub body: Box<Stmt>,
}

/// `p, q -> s` in a `cases`.
#[cycle(statement)]
#[derive(Drop)]
pub struct StmtCase {
    pub patterns: Vec<Pattern>,
    pub body: Box<Stmt>,
}

/// `p |-> s` in a `tixe`.
#[cycle(statement)]
#[derive(Drop)]
pub struct Handler {
    pub pattern: Box<Pattern>,
    pub body: Box<Stmt>,
}

impl Stmt {
    /// The block of these local variables and statements.
    pub fn block(locals: Vec<Dcl>, statements: Vec<Stmt>, place: Place) -> Stmt
        ensures { stmt_view result ≡ block (map dcl_view locals.items) (stmt_trees (stmt_views statements.items)) place }
    {
        Stmt::Block(locals, statements, place)
    }

    /// `target := value`
    pub fn assign(target: Target, value: Box<Expr>, place: Place) -> Stmt
        ensures { stmt_view result ≡ assign (target_view target) (view_of value.value) place }
    {
        Stmt::Assign(target, value, place)
    }

    /// `atomic(assignments)`
    pub fn assign_together(assignments: Vec<Assignment>, place: Place) -> Stmt
        ensures { stmt_view result ≡ assign_together (map assignment_view assignments.items) place }
    {
        Stmt::AssignTogether(assignments, place)
    }

    /// The call of an application.
    pub fn call(application: Box<Expr>, place: Place) -> Stmt
        ensures { stmt_view result ≡ call (view_of application.value) place }
    {
        Stmt::Call(application, place)
    }

    /// The return of a value, or of none.
    pub fn return_of(value: Option<Box<Expr>>, place: Place) -> Stmt
        ensures { stmt_view result ≡ returns (option_map boxed_view value) place }
    {
        Stmt::Return(value, place)
    }

    /// The exit with a value, or with none.
    pub fn exit(value: Option<Box<Expr>>, place: Place) -> Stmt
        ensures { stmt_view result ≡ exits (option_map boxed_view value) place }
    {
        Stmt::Exit(value, place)
    }

    /// `|| (statements)`
    pub fn parallel(statements: Vec<Stmt>, place: Place) -> Stmt
        ensures { stmt_view result ≡ in_parallel (stmt_trees (stmt_views statements.items)) place }
    {
        Stmt::Parallel(statements, place)
    }

    /// `start(object)`
    pub fn start(object: Box<Expr>, place: Place) -> Stmt
        ensures { stmt_view result ≡ start_thread (view_of object.value) place }
    {
        Stmt::Start(object, place)
    }

    /// `startlist(objects)`
    pub fn start_list(objects: Box<Expr>, place: Place) -> Stmt
        ensures { stmt_view result ≡ start_threads (view_of objects.value) place }
    {
        Stmt::StartList(objects, place)
    }
}

impl StmtBranch {
    /// `elseif condition then body`
    pub fn new(condition: Box<Expr>, body: Box<Stmt>) -> StmtBranch
        ensures { stmt_branch_view result ≡ record { condition = (view_of condition.value); body = (stmt_view body.value) } }
    {
        StmtBranch { condition, body }
    }
}

impl StmtCase {
    /// `patterns -> body`
    pub fn new(patterns: Vec<Pattern>, body: Box<Stmt>) -> StmtCase
        ensures { stmt_case_view result ≡ record { patterns = pattern_views patterns.items; body = (stmt_view body.value) } }
    {
        StmtCase { patterns, body }
    }
}

impl Handler {
    /// `pattern |-> body`
    pub fn new(pattern: Box<Pattern>, body: Box<Stmt>) -> Handler
        ensures { handler_view result ≡ record { pattern = (pattern_view pattern.value); body = (stmt_view body.value) } }
    {
        Handler { pattern, body }
    }
}
