// Class values.

ghost use Rattle.std.specs.Prelude.{◌≡◌, OnOk, option_map};
ghost use Rattle.expr_tree.specs.View.{boxed_view};
ghost use Rattle.type_tree.specs.TypeView.{type_view};
ghost use Rattle.spec_checks.specs.Definitions.{value_faults};
ghost use Rattle.class_checks.specs.Results.{first_among};
ghost use Rattle.part_checks.specs.Below.check_scopes.specs.Told.{first_in, scope_view};
ghost use Rattle.part_checks.specs.Below.definition_scopes.specs.Standing.{spec_at};
ghost use Rattle.definition_checks.specs.Parts.{value_in, typed_in};
ghost use Rattle.part_checks.specs.Below.check_frames.specs.Meant.{scope_here, spec_here};

use class_checks::Reach;
use expr_tree::Expr;
use part_checks::handed::check_frames::Here;
use part_checks::handed::check_scopes::{Refusals, Scope, Setting};
use part_checks::handed::check_types::type_faults;
use part_checks::handed::definition_scopes::{Site, in_class};
use part_checks::{refuse_expr, refuse_wanted};
use type_tree::TypeExpr;
use vdm_kinds::OutOfMemory;
use vdm_tree::ValueDef;

/// Notes what is refused in a class value.
pub fn refuse_value(
    site: Site<'_>,
    value: &ValueDef,
    refusals: &mut Refusals,
) -> Result<(), OutOfMemory>
    ensures { OnOk result (first_in refusals.new ≡ first_among (first_in refusals.old) (value_faults (spec_at site.entry) site.entry.class (option_map type_view value.now.declared) (boxed_view value.now.value))) }
{
    let scope = in_class(site.class, Reach::Pure);
    refuse_value_in(site, &scope, value, refusals)
}

fn refuse_value_in(
    site: Site<'_>,
    scope: &Scope,
    value: &ValueDef,
    refusals: &mut Refusals,
) -> Result<(), OutOfMemory>
    ensures { OnOk result (first_in refusals.new ≡ first_among (first_in refusals.old) (value_in (spec_at site.entry) (scope_view scope.now) (option_map type_view value.now.declared) (boxed_view value.now.value))) }
{
    let here = Here {
        alloc: site.alloc,
        setting: Setting {
            table: site.table,
            scope,
        },
        locals: &scope.locals,
    };
    match &value.declared {
        Some(declared) => refuse_typed(here, declared, &value.value, refusals),
        None => refuse_expr(here, &value.value, refusals),
    }
}

/// Notes what is refused in a type, and in an expression that has to meet it.
pub(crate) fn refuse_typed(
    here: Here<'_>,
    declared: &TypeExpr,
    expr: &Box<Expr>,
    refusals: &mut Refusals,
) -> Result<(), OutOfMemory>
    ensures { OnOk result (first_in refusals.new ≡ first_among (first_in refusals.old) (typed_in (spec_here here.entry) (scope_here here.entry) (type_view declared.now) (boxed_view expr.now))) }
{
    let setting = here.setting;
    type_faults(setting, refusals, declared);
    let wanted = setting.form_of(here.alloc, setting.type_scope(), declared)?;
    refuse_wanted(here, &wanted, expr, refusals)
}
