// Patterns that stand in boxes.

ghost use Rattle.std.specs.Prelude.{◌≡◌, IfOk, OnOk, map};
ghost use Rattle.expr_tree.specs.View.{pattern_view};
ghost use Rattle.class_checks.specs.Patterns.{binds, pattern_faults};
ghost use Rattle.class_checks.specs.Results.{first_among};
ghost use Rattle.check_steps.specs.Below.check_scopes.specs.Told.{first_in, spec_in, types_in};
ghost use Rattle.check_steps.specs.Below.check_patterns.specs.Givens.{expr_trees, given_in};
ghost use Rattle.check_steps.specs.Below.check_patterns.specs.Shown.{local_view};

use check_steps::handed::check_patterns::{LocalForm, binds, givens_in, pattern_faults};
use check_steps::handed::check_scopes::{Refusals, Setting};
use expr_tree::{Expr, Pattern};
use std::alloc::Global;
use type_forms::Form;
use vdm_kinds::OutOfMemory;

/// Refuses the records in the pattern whose types are not known, or have other fields.
pub(crate) fn refuse_pattern(
    setting: Setting<'_>,
    pattern: &Box<Pattern>,
    refusals: &mut Refusals,
) -> Result<(), OutOfMemory>
    ensures { OnOk result (first_in refusals.new ≡ first_among (first_in refusals.old) (pattern_faults (spec_in setting.entry) (types_in setting.entry) (pattern_view pattern.now.value))) }
{
    pattern_faults(setting, pattern, refusals)
}

/// The expressions in brackets in the pattern, in text order.
pub(crate) fn givens_of<'t>(
    alloc: Global,
    pattern: &'t Box<Pattern>,
) -> Result<Vec<&'t Box<Expr>>, OutOfMemory>
    ensures { IfOk result (λ found. expr_trees found.items ≡ given_in (pattern_view pattern.entry.now.value)) }
{
    givens_in(alloc, pattern)
}

/// What the pattern binds of a value of the form, in text order.
pub(crate) fn bound_by(
    alloc: Global,
    setting: Setting<'_>,
    form: &Form,
    pattern: &Box<Pattern>,
) -> Result<Vec<LocalForm>, OutOfMemory>
    ensures { IfOk result (λ all. map local_view all.items ≡ binds (spec_in setting.entry) (types_in setting.entry) form.now (pattern_view pattern.now.value)) }
{
    binds(alloc, setting, form, pattern)
}
