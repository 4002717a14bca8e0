// Definitions of one kind behind one another.

ghost use Rattle.std.specs.Prelude.{◌≡◌, map, OnOk};
ghost use Rattle.std.specs.List.{flat_map};
ghost use Rattle.abstract_syntax.specs.Classes.{ValueDefTree};
ghost use Rattle.expr_tree.specs.TypeDefView.{type_def_view};
ghost use Rattle.vdm_tree.specs.ClassView.{function_view, operation_view, sync_view, value_def_view, variable_item_view};
ghost use Rattle.spec_checks.specs.Definitions.{function_faults, item_faults, operation_def_faults, sync_faults, type_def_faults, value_faults};
ghost use Rattle.class_checks.specs.Results.{first_among};
ghost use Rattle.sync_checks.specs.Below.check_scopes.specs.Told.{first_in};
ghost use Rattle.sync_checks.specs.Below.definition_scopes.specs.Standing.{spec_at};

use definition_checks::{
    refuse_function, refuse_item, refuse_operation, refuse_type_def, refuse_value,
};
use expr_tree::TypeDef;
use sync_checks::handed::check_scopes::Refusals;
use sync_checks::handed::definition_scopes::Site;
use sync_checks::refuse_clause;
use vdm_kinds::OutOfMemory;
use vdm_tree::{FunctionDef, OpDef, Sync, ValueDef, VariableItem};

/// Notes what is refused in definitions of types.
pub(crate) fn refuse_type_defs(
    site: Site<'_>,
    definitions: &[TypeDef],
    refusals: &mut Refusals,
) -> Result<(), OutOfMemory>
    ensures { OnOk result (first_in refusals.new ≡ first_among (first_in refusals.old) (flat_map (type_def_faults (spec_at site.entry) site.entry.class) (map type_def_view definitions.now))) }
{
    for definition in definitions {
        refuse_type_def(site, definition, refusals)?;
    }
    Ok(())
}

/// Notes what is refused in class values.
pub(crate) fn refuse_values(
    site: Site<'_>,
    definitions: &[ValueDef],
    refusals: &mut Refusals,
) -> Result<(), OutOfMemory>
    ensures { OnOk result (first_in refusals.new ≡ first_among (first_in refusals.old) (flat_map (λ (v : ValueDefTree). value_faults (spec_at site.entry) site.entry.class v.declared v.value) (map value_def_view definitions.now))) }
{
    for definition in definitions {
        refuse_value(site, definition, refusals)?;
    }
    Ok(())
}

/// Notes what is refused in instance variables and instance invariants.
pub(crate) fn refuse_items(
    site: Site<'_>,
    items: &[VariableItem],
    refusals: &mut Refusals,
) -> Result<(), OutOfMemory>
    ensures { OnOk result (first_in refusals.new ≡ first_among (first_in refusals.old) (flat_map (item_faults (spec_at site.entry) site.entry.class) (map variable_item_view items.now))) }
{
    for item in items {
        refuse_item(site, item, refusals)?;
    }
    Ok(())
}

/// Notes what is refused in functions.
pub(crate) fn refuse_functions(
    site: Site<'_>,
    definitions: &[FunctionDef],
    refusals: &mut Refusals,
) -> Result<(), OutOfMemory>
    ensures { OnOk result (first_in refusals.new ≡ first_among (first_in refusals.old) (flat_map (function_faults (spec_at site.entry) site.entry.class) (map function_view definitions.now))) }
{
    for definition in definitions {
        refuse_function(site, definition, refusals)?;
    }
    Ok(())
}

/// Notes what is refused in operations.
pub(crate) fn refuse_operations(
    site: Site<'_>,
    definitions: &[OpDef],
    refusals: &mut Refusals,
) -> Result<(), OutOfMemory>
    ensures { OnOk result (first_in refusals.new ≡ first_among (first_in refusals.old) (flat_map (operation_def_faults (spec_at site.entry) site.entry.class) (map operation_view definitions.now))) }
{
    for definition in definitions {
        refuse_operation(site, definition, refusals)?;
    }
    Ok(())
}

/// Notes what is refused in clauses of synchronisation.
pub(crate) fn refuse_clauses(
    site: Site<'_>,
    clauses: &[Sync],
    refusals: &mut Refusals,
) -> Result<(), OutOfMemory>
    ensures { OnOk result (first_in refusals.new ≡ first_among (first_in refusals.old) (flat_map (sync_faults (spec_at site.entry) site.entry.class) (map sync_view clauses.now))) }
{
    for clause in clauses {
        refuse_clause(site, clause, refusals)?;
    }
    Ok(())
}
