// Values of definitions.

ghost use Rattle.std.specs.Prelude.{◌≡◌, ◌++◌, Some, IfOk, OnOk, map, option_map};
ghost use Rattle.expr_tree.specs.View.{defined_view, pattern_view};
ghost use Rattle.shared_names.specs.Maps.{held};
ghost use Rattle.type_tree.specs.TypeView.{type_view};
ghost use Rattle.class_checks.specs.Expressions.{defined_form, definition_faults, optional_type_faults, optional_want_faults};
ghost use Rattle.class_checks.specs.Patterns.{binds};
ghost use Rattle.class_checks.specs.Results.{first_among};
ghost use Rattle.class_checks.specs.Scopes.{inside};
ghost use Rattle.check_steps.specs.Below.check_scopes.specs.Told.{first_in, scope_at, told, types_in};
ghost use Rattle.check_steps.specs.Below.check_frames.specs.Meant.{boxed, def_behind, definitions_behind, next_check, scope_here, spec_here};
ghost use Rattle.check_binds.specs.Behind.{defined_then, pattern_then};

use crate::patterns::{bound_by, givens_of, refuse_pattern};
use check_steps::givens_next;
use check_steps::handed::check_frames::{After, Goal, Here, Next};
use check_steps::handed::check_patterns::inside;
use check_steps::handed::check_scopes::{Locals, Refusals};
use check_steps::handed::check_shapes::want_like;
use check_steps::handed::check_types::type_faults;
use expr_tree::{Defined, Expr, Pattern};
use type_forms::Form;
use type_tree::TypeExpr;
use vdm_kinds::{OutOfMemory, Place};

/// The value at the place of the first of the definitions has this form.
pub(crate) fn definitions_behind<'t>(
    here: Here<'_>,
    definitions: &'t [Defined],
    place: Place,
    body: &'t Box<Expr>,
    form: Form,
    refusals: &mut Refusals,
) -> Result<Next<'t>, OutOfMemory>
    ensures { IfOk result (λ next. told (first_in refusals.old) (definitions_behind here.entry.setting (scope_here here.entry) (map defined_view definitions.entry.now) place (boxed body.entry) form) ≡ told (first_in refusals.new) (next_check here.entry.setting next)) }
{
    match definitions {
        [] => Ok(Next::Gives(form)),
        [definition, more @ ..] => {
            let rest = Goal::Definitions {
                definitions: more,
                body,
            };
            definition_behind(here, definition, place, form, rest, refusals)
        }
    }
}

// The value at the place of a definition has this form; then comes the rest.
fn definition_behind<'t>(
    here: Here<'_>,
    definition: &'t Defined,
    place: Place,
    form: Form,
    rest: Goal<'t>,
    refusals: &mut Refusals,
) -> Result<Next<'t>, OutOfMemory>
    ensures { IfOk result (λ next. told (first_in refusals.old) (defined_then here.entry.setting (scope_here here.entry) (pattern_view definition.entry.now.pattern.value) (option_map type_view definition.entry.now.declared) place form rest.entry) ≡ told (first_in refusals.new) (next_check here.entry.setting next)) }
{
    let pattern = &definition.pattern;
    let declared = &definition.declared;
    definition_faults(here, pattern, declared, place, &form, refusals)?;
    let form = defined_form(here, declared, form)?;
    pattern_next(here, pattern, form, rest)
}

/// Notes what is refused in a definition: its pattern has to be known, and its type, where it has one; and the value at the place
/// has to meet that.
pub fn definition_faults(
    here: Here<'_>,
    pattern: &Box<Pattern>,
    declared: &Option<TypeExpr>,
    place: Place,
    form: &Form,
    refusals: &mut Refusals,
) -> Result<(), OutOfMemory>
    ensures { OnOk result (first_in refusals.new ≡ first_among (first_in refusals.old) (definition_faults (spec_here here.entry) (scope_here here.entry) (pattern_view pattern.now.value) (option_map type_view declared.now) place form.now)) }
{
    refuse_pattern(here.setting, pattern, refusals)?;
    optional_faults(here, declared, place, form, refusals)
}

fn optional_faults(
    here: Here<'_>,
    declared: &Option<TypeExpr>,
    place: Place,
    form: &Form,
    refusals: &mut Refusals,
) -> Result<(), OutOfMemory>
    ensures { OnOk result (first_in refusals.new ≡ first_among (first_in refusals.old) (optional_type_faults (spec_here here.entry) (scope_here here.entry) (option_map type_view declared.now) ++ optional_want_faults (spec_here here.entry) (scope_here here.entry) (option_map type_view declared.now) place form.now)) }
{
    match declared {
        Some(declared) => declared_faults(here, declared, place, form, refusals),
        None => Ok(()),
    }
}

fn declared_faults(
    here: Here<'_>,
    declared: &TypeExpr,
    place: Place,
    form: &Form,
    refusals: &mut Refusals,
) -> Result<(), OutOfMemory>
    ensures { OnOk result (first_in refusals.new ≡ first_among (first_in refusals.old) (optional_type_faults (spec_here here.entry) (scope_here here.entry) (Some (type_view declared.now)) ++ optional_want_faults (spec_here here.entry) (scope_here here.entry) (Some (type_view declared.now)) place form.now)) }
{
    let Here { alloc, setting, .. } = here;
    type_faults(setting, refusals, declared);
    let wanted = setting.form_of(alloc, setting.type_scope(), declared)?;
    want_like(setting, &wanted, place, form, refusals);
    Ok(())
}

/// The form of what is defined: where a type is given, it tells the form.
pub fn defined_form(
    here: Here<'_>,
    declared: &Option<TypeExpr>,
    form: Form,
) -> Result<Form, OutOfMemory>
    ensures { IfOk result (λ f. f ≡ defined_form (spec_here here.entry) (scope_here here.entry) (option_map type_view declared.now) form) }
{
    let Here { alloc, setting, .. } = here;
    match declared {
        Some(declared) => setting.form_of(alloc, setting.type_scope(), declared),
        None => Ok(form),
    }
}

// The expressions in brackets in a pattern that is matched with a value of this form; then the rest, inside what it binds.
fn pattern_next<'t>(
    here: Here<'_>,
    pattern: &'t Box<Pattern>,
    form: Form,
    rest: Goal<'t>,
) -> Result<Next<'t>, OutOfMemory>
    ensures { IfOk result (λ next. pattern_then here.entry.setting (scope_here here.entry) (pattern_view pattern.entry.now.value) form rest.entry ≡ next_check here.entry.setting next) }
{
    let locals = inside_pattern(here, pattern, form)?;
    let exprs = givens_of(here.alloc, pattern)?;
    givens_next(here, exprs, 0, After { goal: rest, locals })
}

/// The locals inside a pattern that is matched with a value of this form.
pub fn inside_pattern(
    here: Here<'_>,
    pattern: &Box<Pattern>,
    form: Form,
) -> Result<Locals, OutOfMemory>
    ensures { IfOk result (λ all. scope_at here.entry.setting (held all) ≡ inside (scope_here here.entry) (binds (spec_here here.entry) (types_in here.entry.setting) form (pattern_view pattern.now.value))) }
{
    let alloc = here.alloc;
    let found = bound_by(alloc, here.setting, &form, pattern)?;
    inside(alloc, here.locals, found.as_slice())
}

/// The value of a `def` has this form.
pub(crate) fn def_behind<'t>(
    here: Here<'_>,
    pattern: &'t Box<Pattern>,
    body: &'t Box<Expr>,
    form: Form,
    refusals: &mut Refusals,
) -> Result<Next<'t>, OutOfMemory>
    ensures { IfOk result (λ next. told (first_in refusals.old) (def_behind here.entry.setting (scope_here here.entry) (pattern_view pattern.entry.now.value) (boxed body.entry) form) ≡ told (first_in refusals.new) (next_check here.entry.setting next)) }
{
    refuse_pattern(here.setting, pattern, refusals)?;
    pattern_next(here, pattern, form, Goal::Body(body))
}
