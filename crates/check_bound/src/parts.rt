// Nodes whose parts stand in one scope.

ghost use Rattle.std.specs.Prelude.{◌≡◌, [], IfOk};
ghost use Rattle.expr_tree.specs.View.{view_of};
ghost use Rattle.class_checks.specs.Expressions.{check};
ghost use Rattle.class_checks.specs.Scopes.{ScopeTree};
ghost use Rattle.check_frames.specs.Below.check_scopes.specs.Told.{spec_in};
ghost use Rattle.check_frames.specs.Below.check_scopes.specs.declared.setting.Setting.{Setting as AnySetting};
ghost use Rattle.check_frames.specs.Below.check_shapes.specs.ShapeView.{shape_view};
ghost use Rattle.check_frames.specs.Meant.{next_check, rest_check, scope_here, spec_here};
ghost use Rattle.expr_topics.specs.Topics.{topic_of};
ghost use Rattle.expr_topics.specs.declared.topic.Topic.TheVariants.{Parts as PartsTopic};

use check_frames::handed::check_shapes::Shape;
use check_frames::{Here, Next, Rest};
use check_series::handed::check_steps::rest_next;
use expr_tree::Expr;
use vdm_kinds::OutOfMemory;

/// The parts of a node, and what it is by them.
#[derive(Drop)]
struct Parts<'t> {
    shape: Shape<'t>,
    rest: Rest<'t>,
}

/// The first of the parts.
pub fn parts_next<'t>(here: Here<'_>, expr: &'t Expr) -> Result<Next<'t>, OutOfMemory>
    requires { topic_of (view_of expr.now) ≡ PartsTopic }
    ensures { IfOk result (λ next. check (spec_here here.entry) (scope_here here.entry) (view_of expr.entry.now) ≡ next_check here.entry.setting next) }
{
    let Parts { shape, rest } = parts_of(expr);
    rest_next(here, shape, Vec::new(here.alloc), rest)
}

#[tactic(auto, unfolding(class_checks::specs::Expressions::check, check_frames::specs::Meant::part_then))]
fn parts_of<'t>(expr: &'t Expr) -> Parts<'t>
    requires { topic_of (view_of expr.now) ≡ PartsTopic }
    ensures { (setting : AnySetting) (scope : ScopeTree) → check (spec_in setting) scope (view_of expr.entry.now) ≡ rest_check setting scope (shape_view result.shape) [] result.rest }
{
    match expr {
        Expr::Prefix(sign, operand, _) => parts_as(Shape::Prefix(*sign), Rest::One(operand)),
        Expr::Infix(left, sign, right, _) => {
            parts_as(Shape::Operator(*sign), Rest::Two(left, right))
        }
        Expr::SetEnumeration(elements, _) => {
            parts_as(Shape::Set, Rest::Items(elements.as_slice()))
        }
        Expr::SetRange(first, last, _) => parts_as(Shape::Range, Rest::Two(first, last)),
        Expr::MapEnumeration(pairs, _) => parts_as(Shape::Map, Rest::Maplets(pairs.as_slice())),
        Expr::SequenceEnumeration(items, _) => {
            parts_as(Shape::Sequence, Rest::Items(items.as_slice()))
        }
        Expr::MakeTuple(parts, _) => parts_as(Shape::Tuple, Rest::Items(parts.as_slice())),
        Expr::MakeToken(inner, _) => parts_as(Shape::Token, Rest::One(inner)),
        Expr::ModifyRecord(target, fields, _) => {
            parts_as(Shape::Changed(fields), Rest::Modified(target, fields))
        }
        Expr::IsOfBasic(_, tested, _) => parts_as(Shape::Test, Rest::One(tested)),
        Expr::SameClass(left, right, _) => parts_as(Shape::Test, Rest::Two(left, right)),
        Expr::SameBaseClass(left, right, _) => parts_as(Shape::Test, Rest::Two(left, right)),
        Expr::Subsequence(target, first, last, _) => {
            parts_as(Shape::Subsequence, Rest::Three(target, first, last))
        }
        Expr::SelectPart(target, number, _) => parts_as(Shape::Part(*number), Rest::One(target)),
        _ => parts_as(Shape::Token, Rest::Nothing),
    }
}

fn parts_as<'t>(shape: Shape<'t>, rest: Rest<'t>) -> Parts<'t>
    ensures { result ≡ record { shape = shape.entry; rest = rest.entry } }
{
    Parts { shape, rest }
}
