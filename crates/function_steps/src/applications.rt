// Applications of functions.

ghost use Rattle.std.specs.Prelude.{◌≡◌, IfOk, Some};
ghost use Rattle.expr_tree.specs.View.{expr_trees, views_of};
ghost use Rattle.vdm_tree.specs.ClassView.{function_view};
ghost use Rattle.node_meaning.specs.Functions.{applied, applied_to};
ghost use Rattle.node_meaning.specs.Needs.{Asker};
ghost use Rattle.eval_data.specs.Parts.{nest_of};
ghost use Rattle.eval_data.specs.Steps.{code_of};
ghost use Rattle.spec_table.specs.Tables.{table_spec};

use crate::arguments::arguments_left;
use crate::look_ups::function_definition;
use eval_data::{Nest, Passing, Step};
use expr_tree::Expr;
use fit_steps::all_shared;
use spec_table::ClassTable;
use std::alloc::Global;
use vdm_kinds::{Name, OpRef, OutOfMemory, Place, RunFault};
use vdm_tree::FunctionDef;
use vdm_values::{Slot, Value};

/// A function is applied to the values of the arguments.
pub fn applied<'t>(
    alloc: Global,
    table: &'t ClassTable,
    locals: &mut Vec<(Name, Slot)>,
    op: OpRef,
    place: Place,
    nest: Nest,
    arguments: &'t Vec<Expr>,
    values: Vec<Value>,
) -> Result<Step<'t>, OutOfMemory>
    ensures { IfOk result (λ s. (asker : Asker) → code_of (record { spec = table_spec table.entry.now; asker = asker }) locals.new.items s ≡ applied (table_spec table.entry.now) op place (nest_of nest) (expr_trees (views_of arguments.entry.now.items)) values.items locals.old.items) }
{
    match function_definition(table, &op) {
        None => Ok(Step::Fail(RunFault::TypeFault, place)),
        Some(function) => applied_to(
            alloc, table, locals, op, function, place, nest, arguments, values,
        ),
    }
}

// The arguments are tested first, each at its own place.
fn applied_to<'t>(
    alloc: Global,
    table: &'t ClassTable,
    locals: &mut Vec<(Name, Slot)>,
    op: OpRef,
    function: &'t FunctionDef,
    place: Place,
    nest: Nest,
    arguments: &'t Vec<Expr>,
    values: Vec<Value>,
) -> Result<Step<'t>, OutOfMemory>
    ensures { IfOk result (λ s. (asker : Asker) → code_of (record { spec = table_spec table.entry.now; asker = asker }) locals.new.items s ≡ applied_to (table_spec table.entry.now) op (Some (function_view function.entry.now)) place (nest_of nest) (expr_trees (views_of arguments.entry.now.items)) values.items locals.old.items) }
{
    let values = all_shared(alloc, values)?;
    let passing = Passing {
        op,
        function,
        place,
        nest,
        types: function.parameters.as_slice(),
        arguments,
        values,
        tested: 0,
    };
    arguments_left(alloc, table, locals, passing)
}
