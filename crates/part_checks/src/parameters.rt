// Patterns of parameters.

ghost use Rattle.std.specs.Prelude.{◌≡◌, option_map, IfOk, OnOk};
ghost use Rattle.std.specs.Borrow.{Bor};
ghost use Rattle.std.specs.List.{flat_map};
ghost use Rattle.type_tree.specs.TypeView.{type_view, type_views};
ghost use Rattle.type_tree.specs.declared.type_expr.TypeExpr.{TypeExpr};
ghost use Rattle.expr_tree.specs.View.{pattern_view, pattern_views};
ghost use Rattle.form_meaning.specs.Forms.{no_form};
ghost use Rattle.shared_names.specs.Maps.{held};
ghost use Rattle.spec_checks.specs.Definitions.{parameters_bind};
ghost use Rattle.class_checks.specs.Expressions.{givens};
ghost use Rattle.class_checks.specs.Patterns.{binds};
ghost use Rattle.class_checks.specs.Results.{first_among, gives};
ghost use Rattle.class_checks.specs.Scopes.{all_bound, inside};
ghost use Rattle.definition_scopes.specs.Below.check_scopes.specs.Told.{first_in, scope_at, types_in};
ghost use Rattle.type_check.specs.Below.check_frames.specs.Meant.{scope_here, spec_here};
ghost use Rattle.type_check.specs.Below.check_patterns.specs.Givens.{expr_trees, givens_list};
ghost use Rattle.part_checks.specs.Binding.{parameter_form_in, parameter_in};

use crate::exprs::refuse_expr;
use definition_scopes::handed::check_scopes::{Locals, Refusals};
use expr_tree::{Expr, Pattern};
use type_check::handed::check_frames::Here;
use type_check::handed::check_patterns::{binds, givens_in, inside, pattern_faults};
use type_forms::Form;
use type_tree::TypeExpr;
use vdm_kinds::OutOfMemory;

/// Notes what is refused in the patterns of parameters.
pub fn refuse_parameters(
    here: Here<'_>,
    patterns: &[Pattern],
    refusals: &mut Refusals,
) -> Result<(), OutOfMemory>
    ensures { OnOk result (first_in refusals.new ≡ first_among (first_in refusals.old) (flat_map (parameter_in (spec_here here.entry) (scope_here here.entry)) (pattern_views patterns.now))) }
{
    for pattern in patterns {
        refuse_parameter(here, pattern, refusals)?;
    }
    Ok(())
}

/// Notes what is refused in the pattern of a parameter: the names of records, and the expressions in brackets.
pub fn refuse_parameter(
    here: Here<'_>,
    pattern: &Pattern,
    refusals: &mut Refusals,
) -> Result<(), OutOfMemory>
    ensures { OnOk result (first_in refusals.new ≡ first_among (first_in refusals.old) (parameter_in (spec_here here.entry) (scope_here here.entry) (pattern_view pattern.now))) }
{
    pattern_faults(here.setting, pattern, refusals)?;
    refuse_givens(here, pattern, refusals)
}

// The expressions in brackets in a pattern.
fn refuse_givens(
    here: Here<'_>,
    pattern: &Pattern,
    refusals: &mut Refusals,
) -> Result<(), OutOfMemory>
    ensures { OnOk result (first_in refusals.new ≡ first_among (first_in refusals.old) (givens (spec_here here.entry) (scope_here here.entry) (pattern_view pattern.now) (gives no_form)).refusals) }
{
    let exprs = givens_in(here.alloc, pattern)?;
    refuse_each(here, exprs.as_slice(), refusals)
}

fn refuse_each(
    here: Here<'_>,
    exprs: &[&Box<Expr>],
    refusals: &mut Refusals,
) -> Result<(), OutOfMemory>
    ensures { OnOk result (first_in refusals.new ≡ first_among (first_in refusals.old) (givens_list (spec_here here.entry) (scope_here here.entry) (expr_trees exprs.now) (gives no_form)).refusals) }
{
    for expr in exprs {
        refuse_expr(here, *expr, refusals)?;
    }
    Ok(())
}

/// The locals inside the patterns of parameters of these types. A pattern without a type was refused before, and may be matched
/// with anything.
pub fn inside_parameters(
    here: Here<'_>,
    types: &[TypeExpr],
    patterns: &[Pattern],
) -> Result<Locals, OutOfMemory>
    ensures { IfOk result (λ all. scope_at here.entry.setting (held all) ≡ inside (scope_here here.entry) (parameters_bind (spec_here here.entry) (types_in here.entry.setting) (scope_here here.entry) (type_views types.now) (pattern_views patterns.now))) }
{
    let mut locals = here.locals.copy()?;
    for (index, pattern) in patterns.iter().enumerate() {
        let form = parameter_form(here, types.get(index))?;
        locals = inside_parameter(here, &locals, &form, pattern)?;
    }
    Ok(locals)
}

// The form of a parameter of a type, where there is a type.
fn parameter_form(here: Here<'_>, declared: Option<&TypeExpr>) -> Result<Form, OutOfMemory>
    ensures { IfOk result (λ form. form ≡ parameter_form_in (spec_here here.entry) (types_in here.entry.setting) (option_map (λ (t : Bor TypeExpr). type_view t.now) declared.entry)) }
{
    let setting = here.setting;
    match declared {
        Some(declared) => setting.form_of(here.alloc, setting.type_scope(), declared),
        None => Ok(Form::any()),
    }
}

/// The locals inside the pattern of a parameter of this form, where these locals are bound before it.
pub fn inside_parameter(
    here: Here<'_>,
    locals: &Locals,
    form: &Form,
    pattern: &Pattern,
) -> Result<Locals, OutOfMemory>
    ensures { IfOk result (λ all. held all ≡ all_bound (binds (spec_here here.entry) (types_in here.entry.setting) form.now (pattern_view pattern.now)) (held locals.now)) }
{
    let found = binds(here.alloc, here.setting, form, pattern)?;
    inside(here.alloc, locals, found.as_slice())
}
