// Expressions: the first form that is not built, where objects may be made or not. Each function recurses once a level.

ghost use Rattle.std.specs.Prelude.{◌≡◌, map};
ghost use Rattle.text_phases.specs.Built.{unbuilt_in_expr, unbuilt_in_exprs, unbuilt_in_maybe, unbuilt_in_maplets, unbuilt_in_field_values, unbuilt_in_defined, unbuilt_in_branches, unbuilt_in_cases, unbuilt_in_bind, unbuilt_in_binds, unbuilt_in_pattern, unbuilt_in_patterns, unbuilt_in_maplet_patterns};
ghost use Rattle.expr_tree.specs.View.{view_of, views_of, expr_trees, maybe_view, maplet_view, maplet_trees, field_value_view, field_value_trees, defined_view, defined_trees, branch_view, branch_trees, case_view, case_trees, bind_view, bind_trees, pattern_view, pattern_views, pattern_trees, maplet_pattern_view, maplet_pattern_trees};
ghost use Rattle.built_exprs.specs.Groups.{in_operands, in_bound, in_listed};

use built_nodes::{left_out_here, unless};
use expr_tree::{Bind, Branch, Case, Defined, Expr, FieldValue, Maplet, MapletPattern, Pattern};
use vdm_kinds::Place;

/// In an expression, where objects may be made or not.
#[cycle(unbuilt)]
#[tactic(auto, using(crate::proofs::Groups::four_groups))]
pub(crate) fn in_expr(makes: bool, expr: &Expr) -> Option<Place>
    ensures { result ≡ unbuilt_in_expr makes (view_of expr.now) }
{
    in_operands(makes, expr).or(in_bound(makes, expr).or(in_listed(makes, expr).or(left_out_here(
        expr,
    ))))
}

/// In an operator, or in what stands behind its operand.
#[cycle(unbuilt)]
fn in_operands(makes: bool, expr: &Expr) -> Option<Place>
    ensures { result ≡ in_operands makes (view_of expr.now) }
{
    match expr {
        Expr::Bracketed(inner, _) => in_expr(makes, inner),
        Expr::Prefix(_, operand, _) => in_expr(makes, operand),
        Expr::Infix(left, _, right, _) => in_expr(makes, left).or(in_expr(makes, right)),
        Expr::SetRange(first, last, _) => in_expr(makes, first).or(in_expr(makes, last)),
        Expr::MakeToken(inner, _) => in_expr(makes, inner),
        Expr::IsOfType(tested, _, _) => in_expr(makes, tested),
        Expr::IsOfNamed(_, tested, _) => in_expr(makes, tested),
        Expr::IsOfBasic(_, tested, _) => in_expr(makes, tested),
        Expr::IsOfClass(_, _, tested, _) => in_expr(makes, tested),
        Expr::IsOfBaseClass(_, _, tested, _) => in_expr(makes, tested),
        Expr::SameClass(left, right, _) => in_expr(makes, left).or(in_expr(makes, right)),
        Expr::SameBaseClass(left, right, _) => in_expr(makes, left).or(in_expr(makes, right)),
        Expr::Apply(head, arguments, _) => in_expr(makes, head).or(in_exprs(makes, arguments)),
        Expr::Subsequence(target, first, last, _) => in_expr(makes, target).or(in_expr(
            makes, first,
        ).or(in_expr(makes, last))),
        Expr::Select(target, _, _, _) => in_expr(makes, target),
        Expr::SelectOfClass(target, _, _, _, _, _) => in_expr(makes, target),
        Expr::SelectPart(target, _, _) => in_expr(makes, target),
        _ => None,
    }
}

/// In what has binds.
#[cycle(unbuilt)]
fn in_bound(makes: bool, expr: &Expr) -> Option<Place>
    ensures { result ≡ in_bound makes (view_of expr.now) }
{
    match expr {
        Expr::SetComprehension(element, binds, condition, _) => {
            in_expr(makes, element).or(in_binds(makes, binds).or(in_maybe(makes, condition)))
        }
        Expr::MapComprehension(key, value, binds, condition, _) => in_expr(makes, key).or(in_expr(
            makes, value,
        ).or(in_binds(makes, binds).or(in_maybe(makes, condition)))),
        Expr::SequenceComprehension(item, pattern, set, condition, _) => {
            in_expr(makes, item).or(in_pattern(makes, pattern).or(in_expr(makes, set).or(in_maybe(
                makes, condition,
            ))))
        }
        Expr::LetBe(bind, condition, body, _) => {
            in_bind(makes, bind).or(in_maybe(makes, condition).or(in_expr(makes, body)))
        }
        Expr::ForAll(binds, condition, _) => in_binds(makes, binds).or(in_expr(makes, condition)),
        Expr::Exists(binds, condition, _) => in_binds(makes, binds).or(in_expr(makes, condition)),
        Expr::ExistsOne(bind, condition, _) => in_bind(makes, bind).or(in_expr(makes, condition)),
        Expr::Iota(bind, condition, _) => in_bind(makes, bind).or(in_expr(makes, condition)),
        _ => None,
    }
}

/// In what has other lists, and in a `def`.
#[cycle(unbuilt)]
fn in_listed(makes: bool, expr: &Expr) -> Option<Place>
    ensures { result ≡ in_listed makes (view_of expr.now) }
{
    match expr {
        Expr::SetEnumeration(elements, _) => in_exprs(makes, elements),
        Expr::MapEnumeration(pairs, _) => in_maplets(makes, pairs),
        Expr::SequenceEnumeration(items, _) => in_exprs(makes, items),
        Expr::MakeTuple(parts, _) => in_exprs(makes, parts),
        Expr::MakeRecord(_, fields, _) => in_exprs(makes, fields),
        Expr::ModifyRecord(target, fields, _) => {
            in_expr(makes, target).or(in_field_values(makes, fields))
        }
        Expr::New(_, _, arguments, place) => unless(makes, *place).or(in_exprs(makes, arguments)),
        Expr::LetIn(definitions, body, _) => {
            in_definitions(makes, definitions).or(in_expr(makes, body))
        }
        Expr::DefIn(pattern, value, body, _) => {
            in_pattern(makes, pattern).or(in_expr(makes, value).or(in_expr(makes, body)))
        }
        Expr::IfElse(condition, value, elseifs, otherwise, _) => in_expr(makes, condition).or(
            in_expr(makes, value).or(in_branches(makes, elseifs).or(in_expr(makes, otherwise))),
        ),
        Expr::Cases(subject, cases, others, _) => {
            in_expr(makes, subject).or(in_cases(makes, cases).or(in_maybe(makes, others)))
        }
        _ => None,
    }
}

#[cycle(unbuilt)]
fn in_exprs(makes: bool, exprs: &[Expr]) -> Option<Place>
    ensures { result ≡ unbuilt_in_exprs makes (expr_trees (views_of exprs.now)) }
{
    for expr in exprs {
        if let Some(place) = in_expr(makes, expr) {
            return Some(place);
        }
    }
    None
}

#[cycle(unbuilt)]
fn in_maybe(makes: bool, expr: &Option<Box<Expr>>) -> Option<Place>
    ensures { result ≡ unbuilt_in_maybe makes (maybe_view expr.now) }
{
    match expr {
        Some(expr) => in_expr(makes, expr),
        None => None,
    }
}

#[cycle(unbuilt)]
fn in_maplets(makes: bool, maplets: &[Maplet]) -> Option<Place>
    ensures { result ≡ unbuilt_in_maplets makes (maplet_trees (map maplet_view maplets.now)) }
{
    for maplet in maplets {
        let found = in_expr(makes, &maplet.key).or(in_expr(makes, &maplet.value));
        if let Some(place) = found {
            return Some(place);
        }
    }
    None
}

#[cycle(unbuilt)]
fn in_field_values(makes: bool, fields: &[FieldValue]) -> Option<Place>
    ensures { result ≡ unbuilt_in_field_values makes (field_value_trees (map field_value_view fields.now)) }
{
    for field in fields {
        if let Some(place) = in_expr(makes, &field.value) {
            return Some(place);
        }
    }
    None
}

/// In definitions of a `let`.
#[cycle(unbuilt)]
pub(crate) fn in_definitions(makes: bool, definitions: &[Defined]) -> Option<Place>
    ensures { result ≡ unbuilt_in_defined makes (defined_trees (map defined_view definitions.now)) }
{
    for defined in definitions {
        let found = in_pattern(makes, &defined.pattern).or(in_expr(makes, &defined.value));
        if let Some(place) = found {
            return Some(place);
        }
    }
    None
}

#[cycle(unbuilt)]
fn in_branches(makes: bool, branches: &[Branch]) -> Option<Place>
    ensures { result ≡ unbuilt_in_branches makes (branch_trees (map branch_view branches.now)) }
{
    for branch in branches {
        let found = in_expr(makes, &branch.condition).or(in_expr(makes, &branch.value));
        if let Some(place) = found {
            return Some(place);
        }
    }
    None
}

#[cycle(unbuilt)]
fn in_cases(makes: bool, cases: &[Case]) -> Option<Place>
    ensures { result ≡ unbuilt_in_cases makes (case_trees (map case_view cases.now)) }
{
    for case in cases {
        let found = in_patterns(makes, &case.patterns).or(in_expr(makes, &case.value));
        if let Some(place) = found {
            return Some(place);
        }
    }
    None
}

/// In a bind.
#[cycle(unbuilt)]
pub(crate) fn in_bind(makes: bool, bind: &Bind) -> Option<Place>
    ensures { result ≡ unbuilt_in_bind makes (bind_view bind.now) }
{
    in_patterns(makes, &bind.patterns).or(in_expr(makes, &bind.set))
}

#[cycle(unbuilt)]
fn in_binds(makes: bool, binds: &[Bind]) -> Option<Place>
    ensures { result ≡ unbuilt_in_binds makes (bind_trees (map bind_view binds.now)) }
{
    for bind in binds {
        if let Some(place) = in_bind(makes, bind) {
            return Some(place);
        }
    }
    None
}

/// In a pattern.
#[cycle(unbuilt)]
pub(crate) fn in_pattern(makes: bool, pattern: &Pattern) -> Option<Place>
    ensures { result ≡ unbuilt_in_pattern makes (pattern_view pattern.now) }
{
    match pattern {
        Pattern::AnyValue(_) => None,
        Pattern::Bound(_, _) => None,
        Pattern::Literal(_, _) => None,
        Pattern::EqualTo(inner, _) => in_expr(makes, inner),
        Pattern::Set(elements, _) => in_patterns(makes, elements),
        Pattern::Sequence(items, _) => in_patterns(makes, items),
        Pattern::Map(maplets, _) => in_maplet_patterns(makes, maplets),
        Pattern::EmptyMap(_) => None,
        Pattern::Tuple(parts, _) => in_patterns(makes, parts),
        Pattern::Record(_, fields, _) => in_patterns(makes, fields),
        Pattern::Concatenation(parts, _) => in_patterns(makes, parts),
    }
}

/// In patterns.
#[cycle(unbuilt)]
pub(crate) fn in_patterns(makes: bool, patterns: &[Pattern]) -> Option<Place>
    ensures { result ≡ unbuilt_in_patterns makes (pattern_trees (pattern_views patterns.now)) }
{
    for pattern in patterns {
        if let Some(place) = in_pattern(makes, pattern) {
            return Some(place);
        }
    }
    None
}

#[cycle(unbuilt)]
fn in_maplet_patterns(makes: bool, maplets: &[MapletPattern]) -> Option<Place>
    ensures { result ≡ unbuilt_in_maplet_patterns makes (maplet_pattern_trees (map maplet_pattern_view maplets.now)) }
{
    for maplet in maplets {
        if let Some(place) = in_pattern(makes, &maplet.key).or(in_pattern(makes, &maplet.value)) {
            return Some(place);
        }
    }
    None
}
