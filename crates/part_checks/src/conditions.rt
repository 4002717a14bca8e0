// Conditions of definitions, with the scope and the locals in which they stand.

ghost use Rattle.std.specs.Prelude.{◌≡◌, OnOk, option_map};
ghost use Rattle.class_checks.specs.Operators.{truth};
ghost use Rattle.class_checks.specs.Results.{first_among};
ghost use Rattle.definition_scopes.specs.Below.check_scopes.specs.Told.{first_in};
ghost use Rattle.expr_tree.specs.View.{boxed_view};
ghost use Rattle.shared_names.specs.Maps.{held};
ghost use Rattle.definition_scopes.specs.Standing.{spec_at, with_locals};
ghost use Rattle.part_checks.specs.Wanting.{condition_in, wanted_in};

use crate::exprs::refuse_condition;
use definition_scopes::Site;
use definition_scopes::handed::check_scopes::{Locals, Refusals, Scope, Setting};
use expr_tree::Expr;
use type_check::handed::check_frames::Here;
use vdm_kinds::OutOfMemory;

/// Notes what is refused in a condition.
pub fn refuse_condition_at(
    site: Site<'_>,
    scope: &Scope,
    locals: &Locals,
    condition: &Box<Expr>,
    refusals: &mut Refusals,
) -> Result<(), OutOfMemory>
    ensures { OnOk result (first_in refusals.new ≡ first_among (first_in refusals.old) (wanted_in (spec_at site.entry) (with_locals scope.now (held locals.now)) truth (boxed_view condition.now))) }
{
    let here = Here {
        alloc: site.alloc,
        setting: Setting {
            table: site.table,
            scope,
        },
        locals,
    };
    refuse_condition(here, condition, refusals)
}

/// Notes what is refused in a condition, where there is one.
pub fn refuse_maybe_condition_at(
    site: Site<'_>,
    scope: &Scope,
    locals: &Locals,
    condition: &Option<Box<Expr>>,
    refusals: &mut Refusals,
) -> Result<(), OutOfMemory>
    ensures { OnOk result (first_in refusals.new ≡ first_among (first_in refusals.old) (condition_in (spec_at site.entry) (with_locals scope.now (held locals.now)) (option_map boxed_view condition.now))) }
{
    match condition {
        Some(condition) => refuse_condition_at(site, scope, locals, condition, refusals),
        None => Ok(()),
    }
}
