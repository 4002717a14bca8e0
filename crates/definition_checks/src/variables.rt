// Instance variables and instance invariants.

ghost use Rattle.std.specs.Prelude.{◌≡◌, OnOk, option_map};
ghost use Rattle.expr_tree.specs.View.{boxed_view};
ghost use Rattle.type_tree.specs.TypeView.{type_view};
ghost use Rattle.vdm_tree.specs.ClassView.{variable_item_view, variable_view};
ghost use Rattle.abstract_syntax.specs.Classes.{variable_item};
ghost use Rattle.spec_checks.specs.Definitions.{item_faults, wanted_faults, in_class as in_the_class};
ghost use Rattle.class_checks.specs.Operators.{truth};
ghost use Rattle.class_checks.specs.Results.{first_among};
ghost use Rattle.class_checks.specs.declared.reach.Reach.TheVariants.{Inv};
ghost use Rattle.part_checks.specs.Below.check_scopes.specs.Told.{first_in, scope_view};
ghost use Rattle.part_checks.specs.Below.definition_scopes.specs.Standing.{spec_at};
ghost use Rattle.definition_checks.specs.Parts.{variable_in};

use crate::values::refuse_typed;
use class_checks::Reach;
use expr_tree::Expr;
use part_checks::handed::check_frames::Here;
use part_checks::handed::check_scopes::{Refusals, Scope, Setting};
use part_checks::handed::check_types::type_faults;
use part_checks::handed::definition_scopes::{Site, in_class};
use part_checks::refuse_condition_at;
use vdm_kinds::OutOfMemory;
use vdm_tree::{VarDef, VariableItem};

/// Notes what is refused in what stands among instance variables.
pub fn refuse_item(
    site: Site<'_>,
    item: &VariableItem,
    refusals: &mut Refusals,
) -> Result<(), OutOfMemory>
    ensures { OnOk result (first_in refusals.new ≡ first_among (first_in refusals.old) (item_faults (spec_at site.entry) site.entry.class (variable_item_view item.now))) }
{
    match item {
        VariableItem::Variable(variable) => refuse_variable(site, variable, refusals),
        VariableItem::Invariant(condition, _) => refuse_invariant(site, condition, refusals),
    }
}

fn refuse_variable(
    site: Site<'_>,
    variable: &VarDef,
    refusals: &mut Refusals,
) -> Result<(), OutOfMemory>
    ensures { OnOk result (first_in refusals.new ≡ first_among (first_in refusals.old) (item_faults (spec_at site.entry) site.entry.class (variable_item (variable_view variable.now)))) }
{
    let scope = in_class(site.class, Reach::Init);
    refuse_variable_in(site, &scope, variable, refusals)
}

fn refuse_variable_in(
    site: Site<'_>,
    scope: &Scope,
    variable: &VarDef,
    refusals: &mut Refusals,
) -> Result<(), OutOfMemory>
    ensures { OnOk result (first_in refusals.new ≡ first_among (first_in refusals.old) (variable_in (spec_at site.entry) (scope_view scope.now) (type_view variable.now.declared) (option_map boxed_view variable.now.initial))) }
{
    let here = Here {
        alloc: site.alloc,
        setting: Setting {
            table: site.table,
            scope,
        },
        locals: &scope.locals,
    };
    match &variable.initial {
        Some(initial) => refuse_typed(here, &variable.declared, initial, refusals),
        None => {
            type_faults(here.setting, refusals, &variable.declared);
            Ok(())
        }
    }
}

fn refuse_invariant(
    site: Site<'_>,
    condition: &Box<Expr>,
    refusals: &mut Refusals,
) -> Result<(), OutOfMemory>
    ensures { OnOk result (first_in refusals.new ≡ first_among (first_in refusals.old) (wanted_faults (spec_at site.entry) site.entry.class (in_the_class site.entry.class Inv) truth (boxed_view condition.now))) }
{
    let scope = in_class(site.class, Reach::Inv);
    refuse_condition_at(site, &scope, &scope.locals, condition, refusals)
}
