// What has to hold of a value, so that a type takes it.

ghost use Rattle.std.specs.Prelude.{◌≡◌, Option, option_map, IfOk};
ghost use Rattle.vdm_kinds.specs.declared.place.Place.{Place};
ghost use Rattle.abstract_syntax.specs.Types.{named_type};
ghost use Rattle.type_tree.specs.TypeView.{type_view};
ghost use Rattle.type_meaning.specs.Shapes.{tests_of};
ghost use Rattle.conform.specs.Frames.{found_in, stands};
ghost use Rattle.conform.specs.declared.test.Test.{Test as TestOf};
ghost use Rattle.std.specs.Prelude.{List};

use crate::collecting::Collecting;
use crate::goal::{Goal, Next};
use crate::test::Test;
use expr_tree::{TypeExpr, TypeNames};
use std::alloc::Global;
use vdm_kinds::{Name, OutOfMemory, TypeName};
use vdm_values::Value;

/// What has to hold of the value beside its shape, in the order in which it is tested, so that the type in the class `scope` takes
/// it; None exactly where it has another shape.
pub fn tests_of<'t, N: TypeNames>(
    alloc: Global,
    value: &Value,
    scope: Name,
    declared: &'t TypeExpr,
    names: &'t N,
) -> Result<Option<Vec<Test<'t>>>, OutOfMemory>
    ensures { IfOk result (λ found. option_map (λ tests. found_in (N.found names.now) (N.descends names.now) (N.rank names.now) tests.items) found ≡ tests_of (N.found names.now) (N.descends names.now) (N.rank names.now) value.now scope (type_view declared.now)) }
{
    let next = Next::Tests(Goal {
        value,
        scope,
        declared,
    });
    collected(alloc, Collecting::new(alloc), next, names)
}

/// ... so that the type of a name takes it.
pub fn tests_of_name<'t, N: TypeNames>(
    alloc: Global,
    value: &Value,
    scope: Name,
    name: TypeName,
    names: &'t N,
) -> Result<Option<Vec<Test<'t>>>, OutOfMemory>
    ensures { IfOk result (λ found. (place : Place) → option_map (λ tests. found_in (N.found names.now) (N.descends names.now) (N.rank names.now) tests.items) found ≡ tests_of (N.found names.now) (N.descends names.now) (N.rank names.now) value.now scope (named_type name place)) }
{
    let mut collecting = Collecting::new(alloc);
    let next = collecting.named(scope, name, value, names)?;
    collected(alloc, collecting, next, names)
}

/// What was found, once all is tested.
fn collected<'v, 't, N: TypeNames>(
    alloc: Global,
    collecting: Collecting<'v, 't>,
    next: Next<'v, 't>,
    names: &'t N,
) -> Result<Option<Vec<Test<'t>>>, OutOfMemory>
    ensures { IfOk result (λ found. option_map (λ tests. found_in (N.found names.now) (N.descends names.now) (N.rank names.now) tests.items) found ≡ stands (N.found names.now) (N.descends names.now) (N.rank names.now) collecting.entry.found.items collecting.entry.frames.items next.entry) }
{
    let mut collecting = collecting;
    let mut next = next;
    for step in 0..u64::MAX {
        next = match next {
            Next::Tests(goal) => collecting.shape(alloc, goal, names)?,
            Next::Holds => match collecting.frames.pop() {
                Some(frame) => collecting.held(alloc, frame, names)?,
                None => return Ok(Some(collecting.found)),
            },
            Next::Fails => match collecting.frames.pop() {
                Some(frame) => collecting.failed(alloc, frame, names)?,
                None => return Ok(None),
            },
        };
    }
    Err(OutOfMemory)
}
