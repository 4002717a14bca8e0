// What stands inside binds and has the node's form.

ghost use Rattle.std.specs.Prelude.{◌≡◌, [], map, IfOk};
ghost use Rattle.vdm_kinds.specs.declared.place.Place.{Place as PlaceOf};
ghost use Rattle.abstract_syntax.specs.Expressions.{exists_one, exists_some, for_all, let_be, map_comprehension, no_binds, sequence_comprehension, set_comprehension};
ghost use Rattle.expr_tree.specs.View.{bind_trees, bind_view, maybe_view, pattern_view, view_of};
ghost use Rattle.class_checks.specs.Expressions.{bound_by, check};
ghost use Rattle.check_frames.specs.Below.check_patterns.specs.Shown.{patterns_of};
ghost use Rattle.check_frames.specs.Meant.{bind_check, boxed, inside_of, next_check, scope_here, spec_here};
ghost use Rattle.check_frames.specs.declared.inside.Body.TheVariants.{Parts};
ghost use Rattle.check_frames.specs.declared.rest.Rest.TheVariants.{One};
ghost use Rattle.check_frames.specs.Below.check_shapes.specs.declared.shape.Shape.TheVariants.{Condition};
ghost use Rattle.expr_topics.specs.Topics.{topic_of};
ghost use Rattle.expr_topics.specs.declared.topic.Topic.TheVariants.{Inside as InsideTopic};

use check_frames::handed::check_patterns::Patterns;
use check_frames::handed::check_shapes::Shape;
use check_frames::{Binds, Body, Here, Inside, Next, Rest};
use check_series::{binds_next, set_next};
use expr_tree::{Bind, Expr, Pattern};
use type_forms::Form;
use vdm_kinds::OutOfMemory;

/// The first of the binds.
pub fn inside_next<'t>(here: Here<'_>, expr: &'t Expr) -> Result<Next<'t>, OutOfMemory>
    requires { topic_of (view_of expr.now) ≡ InsideTopic }
    ensures { IfOk result (λ next. check (spec_here here.entry) (scope_here here.entry) (view_of expr.entry.now) ≡ next_check here.entry.setting next) }
{
    match expr {
        Expr::SetComprehension(element, binds, condition, _) => {
            set_of_next(here, element, binds, condition)
        }
        Expr::MapComprehension(key, value, binds, condition, _) => {
            map_of_next(here, key, value, binds, condition)
        }
        Expr::SequenceComprehension(item, pattern, set, condition, _) => {
            sequence_of_next(here, item, pattern, set, condition)
        }
        Expr::LetBe(bind, condition, body, _) => let_be_next(here, bind, condition, body),
        Expr::ForAll(binds, condition, _) => for_all_next(here, binds, condition),
        Expr::Exists(binds, condition, _) => exists_next(here, binds, condition),
        Expr::ExistsOne(bind, condition, _) => exists_one_next(here, bind, condition),
        _ => Ok(Next::Gives(Form::any())),
    }
}

// `{e | x in set S & p}`
fn set_of_next<'t>(
    here: Here<'_>,
    element: &'t Box<Expr>,
    binds: &'t Vec<Bind>,
    condition: &'t Option<Box<Expr>>,
) -> Result<Next<'t>, OutOfMemory>
    ensures { (place : PlaceOf) → IfOk result (λ next. check (spec_here here.entry) (scope_here here.entry) (set_comprehension (boxed element.entry) (bind_trees (map bind_view binds.entry.now.items)) (maybe_view condition.entry.now) place) ≡ next_check here.entry.setting next) }
{
    let body = Body::Parts(Shape::Set, Rest::One(element));
    within_binds(here, binds, condition.as_ref(), body)
}

// `{a |-> b | x in set S & p}`
fn map_of_next<'t>(
    here: Here<'_>,
    key: &'t Box<Expr>,
    value: &'t Box<Expr>,
    binds: &'t Vec<Bind>,
    condition: &'t Option<Box<Expr>>,
) -> Result<Next<'t>, OutOfMemory>
    ensures { (place : PlaceOf) → IfOk result (λ next. check (spec_here here.entry) (scope_here here.entry) (map_comprehension (boxed key.entry) (boxed value.entry) (bind_trees (map bind_view binds.entry.now.items)) (maybe_view condition.entry.now) place) ≡ next_check here.entry.setting next) }
{
    let body = Body::Parts(Shape::Map, Rest::Two(key, value));
    within_binds(here, binds, condition.as_ref(), body)
}

// `[e | p in set S & q]`
fn sequence_of_next<'t>(
    here: Here<'_>,
    item: &'t Box<Expr>,
    pattern: &'t Box<Pattern>,
    set: &'t Box<Expr>,
    condition: &'t Option<Box<Expr>>,
) -> Result<Next<'t>, OutOfMemory>
    ensures { (place : PlaceOf) → IfOk result (λ next. check (spec_here here.entry) (scope_here here.entry) (sequence_comprehension (boxed item.entry) (pattern_view pattern.entry.now.value) (boxed set.entry) (maybe_view condition.entry.now) place) ≡ next_check here.entry.setting next) }
{
    let body = Body::Parts(Shape::Sequence, Rest::One(item));
    within_bind(here, Patterns::One(pattern), set, condition.as_ref(), body)
}

// `let x in set S be st p in e`
fn let_be_next<'t>(
    here: Here<'_>,
    bind: &'t Box<Bind>,
    condition: &'t Option<Box<Expr>>,
    body: &'t Box<Expr>,
) -> Result<Next<'t>, OutOfMemory>
    ensures { (place : PlaceOf) → IfOk result (λ next. check (spec_here here.entry) (scope_here here.entry) (let_be (bind_view bind.entry.now.value) (maybe_view condition.entry.now) (boxed body.entry) place) ≡ next_check here.entry.setting next) }
{
    let patterns = Patterns::Many(&bind.patterns);
    within_bind(
        here,
        patterns,
        &bind.set,
        condition.as_ref(),
        Body::Expr(body),
    )
}

// `forall x in set S & p`
fn for_all_next<'t>(
    here: Here<'_>,
    binds: &'t Vec<Bind>,
    condition: &'t Box<Expr>,
) -> Result<Next<'t>, OutOfMemory>
    ensures { (place : PlaceOf) → IfOk result (λ next. check (spec_here here.entry) (scope_here here.entry) (for_all (bind_trees (map bind_view binds.entry.now.items)) (boxed condition.entry) place) ≡ next_check here.entry.setting next) }
{
    within_binds(here, binds, None, under(condition))
}

// `exists x in set S & p`
fn exists_next<'t>(
    here: Here<'_>,
    binds: &'t Vec<Bind>,
    condition: &'t Box<Expr>,
) -> Result<Next<'t>, OutOfMemory>
    ensures { (place : PlaceOf) → IfOk result (λ next. check (spec_here here.entry) (scope_here here.entry) (exists_some (bind_trees (map bind_view binds.entry.now.items)) (boxed condition.entry) place) ≡ next_check here.entry.setting next) }
{
    within_binds(here, binds, None, under(condition))
}

// `exists1 x in set S & p`
fn exists_one_next<'t>(
    here: Here<'_>,
    bind: &'t Box<Bind>,
    condition: &'t Box<Expr>,
) -> Result<Next<'t>, OutOfMemory>
    ensures { (place : PlaceOf) → IfOk result (λ next. check (spec_here here.entry) (scope_here here.entry) (exists_one (bind_view bind.entry.now.value) (boxed condition.entry) place) ≡ next_check here.entry.setting next) }
{
    let patterns = Patterns::Many(&bind.patterns);
    within_bind(here, patterns, &bind.set, None, under(condition))
}

// A condition under a quantifier.
fn under<'t>(condition: &'t Box<Expr>) -> Body<'t>
    ensures { result ≡ Parts Condition (One condition.entry) }
{
    Body::Parts(Shape::Condition, Rest::One(condition))
}

// Several binds, and what stands inside.
fn within_binds<'t>(
    here: Here<'_>,
    binds: &'t Vec<Bind>,
    condition: Option<&'t Box<Expr>>,
    body: Body<'t>,
) -> Result<Next<'t>, OutOfMemory>
    ensures { IfOk result (λ next. bound_by (spec_here here.entry) (scope_here here.entry) [] (bind_trees (map bind_view binds.entry.now.items)) (inside_of here.entry.setting (scope_here here.entry) (record { condition = condition.entry; body = body.entry })) ≡ next_check here.entry.setting next) }
{
    let rest = Binds {
        found: Vec::new(here.alloc),
        more: binds.as_slice(),
        inside: Inside { condition, body },
    };
    binds_next(here, rest)
}

// The set of one bind alone, and what stands inside.
fn within_bind<'t>(
    here: Here<'_>,
    patterns: Patterns<'t>,
    set: &'t Box<Expr>,
    condition: Option<&'t Box<Expr>>,
    body: Body<'t>,
) -> Result<Next<'t>, OutOfMemory>
    ensures { IfOk result (λ next. bind_check here.entry.setting (scope_here here.entry) [] (patterns_of patterns.entry) (boxed set.entry) no_binds (record { condition = condition.entry; body = body.entry }) ≡ next_check here.entry.setting next) }
{
    let rest = Binds {
        found: Vec::new(here.alloc),
        more: &[],
        inside: Inside { condition, body },
    };
    set_next(here, patterns, set, rest)
}
