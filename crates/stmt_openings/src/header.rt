// What stands before the only statement in a statement.

ghost use Rattle.std.specs.Prelude.{◌≡◌, IfOk};
ghost use Rattle.vdm_tree.specs.StmtView.{boxed_stmt, stmt_view};
ghost use Rattle.stmt_openings.specs.Openings.{made_by};

use std::alloc::Global;
use stmt_parts::boxed;
use vdm_kinds::{NameAt, OutOfMemory, Place};
use vdm_tree::{Bind, Defined, Expr, Pattern, Stmt};

/// What stands before the only statement in a statement.
#[derive(Drop)]
pub enum Header {
    /// `let p : T = a, q = b in`
    Let(Vec<Defined>, Place),
    /// `let x in set S be st p in`
    LetBe(Box<Bind>, Option<Box<Expr>>, Place),
    /// `def p = a in`
    Def(Box<Pattern>, Box<Expr>, Place),
    /// `while c do`
    While(Box<Expr>, Place),
    /// `for i = a to b by c do`
    Numbers(NameAt, Box<Expr>, Box<Expr>, Option<Box<Expr>>, Place),
    /// `for all p in set S do`
    Set(Box<Pattern>, Box<Expr>, Place),
    /// `for p in q do`
    Sequence(Box<Pattern>, Box<Expr>, Place),
}

impl Header {
    /// The statement of the header and its body.
    fn before(self, body: Box<Stmt>) -> Stmt
        ensures { stmt_view result ≡ made_by self (boxed_stmt body) }
    {
        match self {
            Header::Let(definitions, place) => Stmt::let_in(definitions, body, place),
            Header::LetBe(bind, condition, place) => Stmt::let_be(bind, condition, body, place),
            Header::Def(pattern, value, place) => Stmt::def_in(pattern, value, body, place),
            Header::While(condition, place) => Stmt::while_do(condition, body, place),
            Header::Numbers(name, first, last, step, place) => {
                Stmt::for_numbers(name.name, name.place, first, last, step, body, place)
            }
            Header::Set(pattern, set, place) => Stmt::for_set(pattern, set, body, place),
            Header::Sequence(pattern, sequence, place) => {
                Stmt::for_sequence(pattern, sequence, body, place)
            }
        }
    }

    /// The statement of the header and its body, in a box.
    pub fn made(self, alloc: Global, body: Box<Stmt>) -> Result<Box<Stmt>, OutOfMemory>
        ensures { IfOk result (λ s. boxed_stmt s ≡ made_by self (boxed_stmt body)) }
    {
        boxed(alloc, self.before(body))
    }
}
