// What reaches as far to the right as it can.

ghost use Rattle.std.specs.Prelude.{◌≡◌, map};
ghost use Rattle.abstract_syntax.specs.Expressions.{let_in, let_be, def_in, if_else, cases_of, for_all, exists_some, exists_one, iota_of};
ghost use Rattle.expr_tree.specs.View.{view_of, maybe_view, bind_trees, bind_view, pattern_view, defined_trees, defined_view, branch_trees, branch_view, case_trees, case_view};

use crate::expr::Expr;
use crate::parts::{Branch, Case, Defined};
use crate::pattern::{Bind, Pattern};
use vdm_kinds::Place;

impl Expr {
    /// `let definitions in body`
    pub fn let_in(definitions: Vec<Defined>, body: Box<Expr>, place: Place) -> Expr
        ensures { view_of result ≡ let_in (defined_trees (map defined_view definitions.items)) (view_of body.value) place }
    {
        Expr::LetIn(definitions, body, place)
    }

    /// `let bind be st condition in body`
    pub fn let_be(
        bind: Box<Bind>,
        condition: Option<Box<Expr>>,
        body: Box<Expr>,
        place: Place,
    ) -> Expr
        ensures { view_of result ≡ let_be (bind_view bind.value) (maybe_view condition) (view_of body.value) place }
    {
        Expr::LetBe(bind, condition, body, place)
    }

    /// `def pattern = value in body`
    pub fn def_in(pattern: Box<Pattern>, value: Box<Expr>, body: Box<Expr>, place: Place) -> Expr
        ensures { view_of result ≡ def_in (pattern_view pattern.value) (view_of value.value) (view_of body.value) place }
    {
        Expr::DefIn(pattern, value, body, place)
    }

    /// `if condition then value elseifs else otherwise`
    pub fn if_else(
        condition: Box<Expr>,
        value: Box<Expr>,
        elseifs: Vec<Branch>,
        otherwise: Box<Expr>,
        place: Place,
    ) -> Expr
        ensures { view_of result ≡ if_else (view_of condition.value) (view_of value.value) (branch_trees (map branch_view elseifs.items)) (view_of otherwise.value) place }
    {
        Expr::IfElse(condition, value, elseifs, otherwise, place)
    }

    /// `cases subject: cases, others -> others end`
    pub fn cases(
        subject: Box<Expr>,
        cases: Vec<Case>,
        others: Option<Box<Expr>>,
        place: Place,
    ) -> Expr
        ensures { view_of result ≡ cases_of (view_of subject.value) (case_trees (map case_view cases.items)) (maybe_view others) place }
    {
        Expr::Cases(subject, cases, others, place)
    }

    /// `forall binds & condition`
    pub fn for_all(binds: Vec<Bind>, condition: Box<Expr>, place: Place) -> Expr
        ensures { view_of result ≡ for_all (bind_trees (map bind_view binds.items)) (view_of condition.value) place }
    {
        Expr::ForAll(binds, condition, place)
    }

    /// `exists binds & condition`
    pub fn exists(binds: Vec<Bind>, condition: Box<Expr>, place: Place) -> Expr
        ensures { view_of result ≡ exists_some (bind_trees (map bind_view binds.items)) (view_of condition.value) place }
    {
        Expr::Exists(binds, condition, place)
    }

    /// `exists1 bind & condition`
    pub fn exists_one(bind: Box<Bind>, condition: Box<Expr>, place: Place) -> Expr
        ensures { view_of result ≡ exists_one (bind_view bind.value) (view_of condition.value) place }
    {
        Expr::ExistsOne(bind, condition, place)
    }

    /// `iota bind & condition`
    pub fn iota(bind: Box<Bind>, condition: Box<Expr>, place: Place) -> Expr
        ensures { view_of result ≡ iota_of (bind_view bind.value) (view_of condition.value) place }
    {
        Expr::Iota(bind, condition, place)
    }
}
