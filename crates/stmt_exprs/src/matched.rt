// Patterns that are matched with a value.

ghost use Rattle.std.specs.Prelude.{◌≡◌, IfOk, OnOk};
ghost use Rattle.expr_tree.specs.View.{pattern_view};
ghost use Rattle.class_checks.specs.Expressions.{givens};
ghost use Rattle.class_checks.specs.Patterns.{pattern_faults};
ghost use Rattle.class_checks.specs.Results.{first_among, refusing};
ghost use Rattle.spec_checks.specs.Statements.{done, inside_pattern};
ghost use Rattle.stmt_scopes.specs.Below.check_scopes.specs.Told.{first_in, types_in};
ghost use Rattle.stmt_scopes.specs.Below.check_frames.specs.Meant.{scope_here, spec_here};
ghost use Rattle.stmt_scopes.specs.Standing.{standing_of, stands_here};

use crate::brackets::refuse_given;
use expr_tree::Pattern;
use stmt_scopes::handed::check_frames::Here;
use stmt_scopes::handed::check_patterns::pattern_faults;
use stmt_scopes::handed::check_scopes::Refusals;
use stmt_scopes::{Standing, Stands, moved, names_in};
use type_check::handed::check_binds::inside_pattern as locals_inside;
use type_forms::Form;
use vdm_kinds::OutOfMemory;

/// Notes what is refused in a pattern: the names of its records, and then the expressions in brackets in it.
pub fn refuse_pattern(
    here: Here<'_>,
    pattern: &Box<Pattern>,
    refusals: &mut Refusals,
) -> Result<(), OutOfMemory>
    ensures { OnOk result (first_in refusals.new ≡ first_among (first_in refusals.old) (refusing (pattern_faults (spec_here here.entry) (types_in here.entry.setting) (pattern_view pattern.now.value)) (givens (spec_here here.entry) (scope_here here.entry) (pattern_view pattern.now.value) done)).refusals) }
{
    pattern_faults(here.setting, pattern, refusals)?;
    refuse_given(here, pattern, refusals)
}

/// Where that stands which stands inside a pattern that is matched with a value of this form.
pub fn inside_pattern(
    stands: Stands<'_>,
    form: Form,
    pattern: &Box<Pattern>,
) -> Result<Standing, OutOfMemory>
    ensures { IfOk result (λ standing. standing_of stands.entry standing ≡ inside_pattern (spec_here stands.entry.here) (stands_here stands.entry) form (pattern_view pattern.now.value)) }
{
    let locals = locals_inside(stands.here, pattern, form)?;
    let names = names_in(stands.here.alloc, pattern)?;
    moved(stands, locals, names.as_slice())
}
