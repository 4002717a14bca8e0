// Calls, whose arguments come next.

ghost use Rattle.std.specs.Prelude.{◌≡◌, [], IfOk};
ghost use Rattle.class_checks.specs.Shapes.{of_call};
ghost use Rattle.type_forms.specs.Tree.{form_trees};
ghost use Rattle.check_frames.specs.Meant.{next_check, rest_check, scope_here};

use crate::parts::rest_next;
use check_calls::Callee;
use check_frames::handed::check_shapes::Shape;
use check_frames::{Here, Next, Rest};
use vdm_kinds::OutOfMemory;

/// The first of the arguments; with none, what is given.
pub fn called_next<'t>(
    here: Here<'_>,
    callee: Callee,
    arguments: Rest<'t>,
) -> Result<Next<'t>, OutOfMemory>
    ensures { IfOk result (λ next. rest_check here.entry.setting (scope_here here.entry) (of_call (form_trees callee.wants.items) callee.result) [] arguments.entry ≡ next_check here.entry.setting next) }
{
    let Callee { wants, result } = callee;
    let shape = Shape::Call(wants, result);
    rest_next(here, shape, Vec::new(here.alloc), arguments)
}
