// What binds otherwise, or chooses.

ghost use Rattle.std.specs.Prelude.{◌≡◌, map, IfOk};
ghost use Rattle.vdm_kinds.specs.declared.place.Place.{Place as PlaceOf};
ghost use Rattle.abstract_syntax.specs.Expressions.{cases_of, def_in, if_else, iota_of, let_in};
ghost use Rattle.expr_tree.specs.View.{bind_view, branch_trees, branch_view, case_trees, case_view, defined_trees, defined_view, maybe_view, pattern_view, view_of};
ghost use Rattle.class_checks.specs.Expressions.{check};
ghost use Rattle.check_frames.specs.Meant.{boxed, next_check, scope_here, spec_here};
ghost use Rattle.expr_topics.specs.Topics.{topic_of};
ghost use Rattle.expr_topics.specs.declared.topic.Topic.TheVariants.{Choices};

use check_frames::handed::check_patterns::Patterns;
use check_frames::{BindStep, Branches, Choice, Here, Next, Step};
use check_series::handed::check_steps::{part_of, place_of};
use check_series::{definitions_next, if_next};
use expr_tree::{Bind, Branch, Case, Defined, Expr, Pattern};
use type_forms::Form;
use vdm_kinds::OutOfMemory;

/// The first value, or what is chosen by.
pub fn choice_next<'t>(here: Here<'_>, expr: &'t Expr) -> Result<Next<'t>, OutOfMemory>
    requires { topic_of (view_of expr.now) ≡ Choices }
    ensures { IfOk result (λ next. check (spec_here here.entry) (scope_here here.entry) (view_of expr.entry.now) ≡ next_check here.entry.setting next) }
{
    match expr {
        Expr::LetIn(definitions, body, _) => let_next(here, definitions, body),
        Expr::DefIn(pattern, value, body, _) => def_next(here, pattern, value, body),
        Expr::IfElse(condition, value, elseifs, otherwise, _) => {
            if_else_next(here, condition, value, elseifs, otherwise)
        }
        Expr::Cases(subject, cases, others, _) => subject_next(here, subject, cases, others),
        Expr::Iota(bind, condition, _) => iota_next(here, bind, condition),
        _ => Ok(Next::Gives(Form::any())),
    }
}

// `let p = a, q = b in e`
fn let_next<'t>(
    here: Here<'_>,
    definitions: &'t Vec<Defined>,
    body: &'t Box<Expr>,
) -> Result<Next<'t>, OutOfMemory>
    ensures { (place : PlaceOf) → IfOk result (λ next. check (spec_here here.entry) (scope_here here.entry) (let_in (defined_trees (map defined_view definitions.entry.now.items)) (boxed body.entry) place) ≡ next_check here.entry.setting next) }
{
    definitions_next(here, definitions.as_slice(), body)
}

// `def p = a in e`
fn def_next<'t>(
    here: Here<'_>,
    pattern: &'t Box<Pattern>,
    value: &'t Box<Expr>,
    body: &'t Box<Expr>,
) -> Result<Next<'t>, OutOfMemory>
    ensures { (place : PlaceOf) → IfOk result (λ next. check (spec_here here.entry) (scope_here here.entry) (def_in (pattern_view pattern.entry.now.value) (boxed value.entry) (boxed body.entry) place) ≡ next_check here.entry.setting next) }
{
    let step = BindStep::Def { pattern, body };
    part_of(here, value, Step::Bind(step))
}

// `if c then a elseif d then b else e`
fn if_else_next<'t>(
    here: Here<'_>,
    condition: &'t Box<Expr>,
    value: &'t Box<Expr>,
    elseifs: &'t Vec<Branch>,
    otherwise: &'t Box<Expr>,
) -> Result<Next<'t>, OutOfMemory>
    ensures { (place : PlaceOf) → IfOk result (λ next. check (spec_here here.entry) (scope_here here.entry) (if_else (boxed condition.entry) (boxed value.entry) (branch_trees (map branch_view elseifs.entry.now.items)) (boxed otherwise.entry) place) ≡ next_check here.entry.setting next) }
{
    let rest = Branches {
        known: Form::nothing(),
        branches: elseifs.as_slice(),
        otherwise,
    };
    if_next(here, condition, value, rest)
}

// What `cases` looks at.
fn subject_next<'t>(
    here: Here<'_>,
    subject: &'t Box<Expr>,
    cases: &'t Vec<Case>,
    others: &'t Option<Box<Expr>>,
) -> Result<Next<'t>, OutOfMemory>
    ensures { (place : PlaceOf) → IfOk result (λ next. check (spec_here here.entry) (scope_here here.entry) (cases_of (boxed subject.entry) (case_trees (map case_view cases.entry.now.items)) (maybe_view others.entry.now) place) ≡ next_check here.entry.setting next) }
{
    let choice = Choice::Subject {
        cases: cases.as_slice(),
        others,
    };
    part_of(here, subject, Step::Choice(choice))
}

// `iota x in set S & p`
fn iota_next<'t>(
    here: Here<'_>,
    bind: &'t Box<Bind>,
    condition: &'t Box<Expr>,
) -> Result<Next<'t>, OutOfMemory>
    ensures { (place : PlaceOf) → IfOk result (λ next. check (spec_here here.entry) (scope_here here.entry) (iota_of (bind_view bind.entry.now.value) (boxed condition.entry) place) ≡ next_check here.entry.setting next) }
{
    let step = BindStep::Iota {
        patterns: Patterns::Many(&bind.patterns),
        place: place_of(&bind.set),
        condition,
    };
    part_of(here, &bind.set, Step::Bind(step))
}
