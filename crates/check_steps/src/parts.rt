// The parts of a node in one scope.

ghost use Rattle.std.specs.Prelude.{◌≡◌, IfOk, map};
ghost use Rattle.expr_tree.specs.View.{view_of, views_of, expr_trees, maplet_trees, maplet_view, field_value_trees, field_value_view};
ghost use Rattle.class_checks.specs.Expressions.{listed, pairs_in, changed as changed_fields, changed_names};
ghost use Rattle.check_frames.specs.Below.check_shapes.specs.ShapeView.{shape_view, seen_view};
ghost use Rattle.class_checks.specs.Shapes.{all_done};
ghost use Rattle.check_frames.specs.Meant.{boxed, spec_here, scope_here, next_check, part_check, rest_check};

use check_frames::handed::check_shapes::{Seen, Shape, finished};
use check_frames::{Here, Next, Rest, Step};
use expr_tree::{Expr, FieldValue, Maplet};
use vdm_kinds::OutOfMemory;

/// The next of the parts, behind those that are done; with none left, the node's form.
pub fn rest_next<'t>(
    here: Here<'_>,
    shape: Shape<'t>,
    done: Vec<Seen>,
    rest: Rest<'t>,
) -> Result<Next<'t>, OutOfMemory>
    ensures { IfOk result (λ next. rest_check here.entry.setting (scope_here here.entry) (shape_view shape.entry) (map seen_view done.items) rest.entry ≡ next_check here.entry.setting next) }
{
    match rest {
        Rest::Nothing => no_next(here, shape, done),
        Rest::One(part) => part_next(here, shape, done, part, Rest::Nothing),
        Rest::Two(part, last) => part_next(here, shape, done, part, Rest::One(last)),
        Rest::Three(part, next, last) => part_next(here, shape, done, part, Rest::Two(next, last)),
        Rest::Items(items) => items_next(here, shape, done, items),
        Rest::Maplets(pairs) => pairs_next(here, done, pairs),
        Rest::MapletValue(value, pairs) => {
            part_next(here, Shape::Map, done, value, Rest::Maplets(pairs))
        }
        Rest::FieldValues { changed, values } => fields_next(here, done, changed, values),
        Rest::Modified(part, changed) => {
            let values = changed.as_slice();
            part_next(
                here,
                shape,
                done,
                part,
                Rest::FieldValues { changed, values },
            )
        }
    }
}

fn no_next<'t>(here: Here<'_>, shape: Shape<'t>, done: Vec<Seen>) -> Result<Next<'t>, OutOfMemory>
    ensures { IfOk result (λ next. all_done (spec_here here.entry) (shape_view shape.entry) (map seen_view done.items) ≡ next_check here.entry.setting next) }
{
    let form = finished(here.alloc, here.setting, shape, done)?;
    Ok(Next::Gives(form))
}

/// A part, and then the others.
pub fn part_next<'t>(
    here: Here<'_>,
    shape: Shape<'t>,
    done: Vec<Seen>,
    part: &'t Box<Expr>,
    rest: Rest<'t>,
) -> Result<Next<'t>, OutOfMemory>
    ensures { IfOk result (λ next. part_check here.entry.setting (scope_here here.entry) (shape_view shape.entry) (map seen_view done.items) (boxed part.entry) rest.entry ≡ next_check here.entry.setting next) }
{
    item_next(here, shape, done, part, rest)
}

fn item_next<'t>(
    here: Here<'_>,
    shape: Shape<'t>,
    done: Vec<Seen>,
    part: &'t Expr,
    rest: Rest<'t>,
) -> Result<Next<'t>, OutOfMemory>
    ensures { IfOk result (λ next. part_check here.entry.setting (scope_here here.entry) (shape_view shape.entry) (map seen_view done.items) (view_of part.entry.now) rest.entry ≡ next_check here.entry.setting next) }
{
    let step = Step::Part {
        shape,
        done,
        place: part.place(),
        rest,
    };
    Next::part(here, part, step)
}

fn items_next<'t>(
    here: Here<'_>,
    shape: Shape<'t>,
    done: Vec<Seen>,
    items: &'t [Expr],
) -> Result<Next<'t>, OutOfMemory>
    ensures { IfOk result (λ next. listed (spec_here here.entry) (scope_here here.entry) (shape_view shape.entry) (map seen_view done.items) (expr_trees (views_of items.entry.now)) ≡ next_check here.entry.setting next) }
{
    match items {
        [] => no_next(here, shape, done),
        [part, others @ ..] => item_next(here, shape, done, part, Rest::Items(others)),
    }
}

fn pairs_next<'t>(
    here: Here<'_>,
    done: Vec<Seen>,
    pairs: &'t [Maplet],
) -> Result<Next<'t>, OutOfMemory>
    ensures { IfOk result (λ next. pairs_in (spec_here here.entry) (scope_here here.entry) (map seen_view done.items) (maplet_trees (map maplet_view pairs.entry.now)) ≡ next_check here.entry.setting next) }
{
    match pairs {
        [] => no_next(here, Shape::Map, done),
        [pair, others @ ..] => {
            let rest = Rest::MapletValue(&pair.value, others);
            part_next(here, Shape::Map, done, &pair.key, rest)
        }
    }
}

fn fields_next<'t>(
    here: Here<'_>,
    done: Vec<Seen>,
    changed: &'t Vec<FieldValue>,
    values: &'t [FieldValue],
) -> Result<Next<'t>, OutOfMemory>
    ensures { IfOk result (λ next. changed_fields (spec_here here.entry) (scope_here here.entry) (changed_names (field_value_trees (map field_value_view changed.entry.now.items))) (map seen_view done.items) (field_value_trees (map field_value_view values.entry.now)) ≡ next_check here.entry.setting next) }
{
    let shape = Shape::Changed(changed);
    match values {
        [] => no_next(here, shape, done),
        [field, values @ ..] => {
            let rest = Rest::FieldValues { changed, values };
            part_next(here, shape, done, &field.value, rest)
        }
    }
}
