// Definitions of a `let`.

ghost use Rattle.std.specs.Prelude.{◌≡◌, ◌∷◌, [], map, IfOk};
ghost use Rattle.expr_tree.specs.View.{defined_trees, defined_view};
ghost use Rattle.class_checks.specs.Expressions.{defined_in};
ghost use Rattle.class_checks.specs.Results.{Checked};
ghost use Rattle.class_checks.specs.Scopes.{ScopeTree};
ghost use Rattle.stmt_scopes.specs.Below.check_scopes.specs.Told.{first_in};
ghost use Rattle.stmt_scopes.specs.Below.check_frames.specs.Meant.{at, scope_here, spec_here};
ghost use Rattle.stmt_scopes.specs.Refused.{refused};

use crate::brackets::refuse_given;
use crate::wanting::expr_form;
use expr_tree::Defined;
use stmt_scopes::handed::check_frames::Here;
use stmt_scopes::handed::check_scopes::{Locals, Refusals};
use type_check::handed::check_binds::{defined_form, definition_faults, inside_pattern};
use type_check::handed::check_steps::place_of;
use vdm_kinds::OutOfMemory;

/// The locals behind definitions, of which each sees the earlier ones; what is refused in them is noted.
pub fn inside_definitions(
    here: Here<'_>,
    definitions: &[Defined],
    refusals: &mut Refusals,
) -> Result<Locals, OutOfMemory>
    ensures { IfOk result (λ locals. (rest : ScopeTree → Checked) → refused (first_in refusals.old) (defined_in (spec_here here.entry) (scope_here here.entry) (defined_trees (map defined_view definitions.now)) rest) ≡ refused (first_in refusals.new) (rest (at here.entry.setting locals))) }
{
    let mut locals = here.locals.copy()?;
    for definition in definitions {
        locals = inside_next(here, &locals, definition, refusals)?;
    }
    Ok(locals)
}

// The locals behind a definition that stands where these are.
fn inside_next(
    here: Here<'_>,
    locals: &Locals,
    definition: &Defined,
    refusals: &mut Refusals,
) -> Result<Locals, OutOfMemory>
    ensures { IfOk result (λ more. (rest : ScopeTree → Checked) → refused (first_in refusals.old) (defined_in (spec_here here.entry) (at here.entry.setting locals.now) (defined_trees (defined_view definition.now ∷ [])) rest) ≡ refused (first_in refusals.new) (rest (at here.entry.setting more))) }
{
    let here = Here { locals, ..here };
    inside_definition(here, definition, refusals)
}

fn inside_definition(
    here: Here<'_>,
    definition: &Defined,
    refusals: &mut Refusals,
) -> Result<Locals, OutOfMemory>
    ensures { IfOk result (λ more. (rest : ScopeTree → Checked) → refused (first_in refusals.old) (defined_in (spec_here here.entry) (scope_here here.entry) (defined_trees (defined_view definition.now ∷ [])) rest) ≡ refused (first_in refusals.new) (rest (at here.entry.setting more))) }
{
    let pattern = &definition.pattern;
    let declared = &definition.declared;
    let value = &definition.value;
    let form = expr_form(here, value, refusals)?;
    definition_faults(here, pattern, declared, place_of(value), &form, refusals)?;
    refuse_given(here, pattern, refusals)?;
    let form = defined_form(here, declared, form)?;
    inside_pattern(here, pattern, form)
}
