// The definitions of functions and class values, by the table of the classes.

ghost use Rattle.std.specs.Prelude.{◌≡◌, option_map};
ghost use Rattle.std.specs.Borrow.{Bor};
ghost use Rattle.vdm_tree.specs.ClassView.{function_view, value_def_view};
ghost use Rattle.vdm_tree.specs.declared.class_def.FunctionDef.{FunctionDef};
ghost use Rattle.vdm_tree.specs.declared.class_def.ValueDef.{ValueDef};
ghost use Rattle.spec_table.specs.Tables.{table_spec};
ghost use Rattle.node_meaning.specs.Names.{function_definition, value_definition};

use spec_table::ClassTable;
use vdm_kinds::{OpRef, VarRef};
use vdm_tree::{FunctionDef, ValueDef};

/// The definition of a function in its class.
pub(crate) fn function_definition<'t>(table: &'t ClassTable, op: &OpRef) -> Option<&'t FunctionDef>
    ensures { option_map (λ (d : Bor FunctionDef). function_view d.now) result ≡ function_definition (table_spec table.now) op.now }
{
    table.function(op)
}

/// The definition of a class value in its class.
pub(crate) fn value_definition<'t>(table: &'t ClassTable, value: &VarRef) -> Option<&'t ValueDef>
    ensures { option_map (λ (d : Bor ValueDef). value_def_view d.now) result ≡ value_definition (table_spec table.now) value.now }
{
    table.value(value)
}
