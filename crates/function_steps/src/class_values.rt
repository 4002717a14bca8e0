// Class values, each of which is evaluated where it is named.

ghost use Rattle.std.specs.Prelude.{◌≡◌, IfOk, Some, option_map};
ghost use Rattle.type_tree.specs.TypeView.{type_view};
ghost use Rattle.vdm_tree.specs.ClassView.{value_def_view};
ghost use Rattle.node_meaning.specs.Functions.{class_value, class_value_of, value_given};
ghost use Rattle.node_meaning.specs.Needs.{Asker, Setting};
ghost use Rattle.eval_data.specs.Parts.{maybe_type, nest_of};
ghost use Rattle.eval_data.specs.Steps.{code_of};
ghost use Rattle.spec_table.specs.Tables.{table_spec};
ghost use Rattle.fit_steps.specs.Tests.{under};

use crate::look_ups::value_definition;
use crate::parts::{inside_class, part};
use eval_data::{Frame, Naming, Nest, Step, Use};
use fit_steps::fitted_maybe;
use spec_table::ClassTable;
use std::alloc::Global;
use std::mem;
use type_tree::TypeExpr;
use vdm_kinds::{Name, OutOfMemory, Place, RunFault, VarRef};
use vdm_tree::ValueDef;
use vdm_values::{Slot, Value};

/// A class value, which sees no local of the node that names it.
pub fn class_value<'t>(
    alloc: Global,
    table: &'t ClassTable,
    locals: &mut Vec<(Name, Slot)>,
    reference: VarRef,
    place: Place,
    nest: Nest,
) -> Result<Step<'t>, OutOfMemory>
    ensures { IfOk result (λ s. (asker : Asker) → code_of (record { spec = table_spec table.entry.now; asker = asker }) locals.new.items s ≡ class_value (table_spec table.entry.now) reference place (nest_of nest) locals.old.items) }
{
    match value_definition(table, &reference) {
        None => Ok(Step::Fail(RunFault::Undefined, place)),
        Some(definition) => evaluated(alloc, locals, reference.class, definition, place, nest),
    }
}

// The expression of a class value of a class.
fn evaluated<'t>(
    alloc: Global,
    locals: &mut Vec<(Name, Slot)>,
    class: Name,
    definition: &'t ValueDef,
    place: Place,
    nest: Nest,
) -> Result<Step<'t>, OutOfMemory>
    ensures { IfOk result (λ s. (setting : Setting) → code_of setting locals.new.items s ≡ class_value_of setting.spec class (Some (value_def_view definition.entry.now)) place (nest_of nest) locals.old.items) }
{
    let declared = declared_of(definition);
    let outer = mem::replace(locals, Vec::new(alloc));
    let naming = Naming {
        class,
        declared,
        nest,
        outer,
    };
    let used = Use::ClassValue(Box::new(alloc, naming)?);
    let here = inside_class(class, nest);
    Ok(part(here, &definition.value, Frame::With(used, place)))
}

// The type of a class value, where one is given.
fn declared_of<'t>(definition: &'t ValueDef) -> Option<&'t TypeExpr>
    ensures { maybe_type result ≡ option_map type_view definition.now.declared }
{
    match &definition.declared {
        Some(declared) => Some(declared),
        None => None,
    }
}

/// A class value is tested against its type, where one is given, among the locals of the node that names it; then it is the value of
/// that node.
pub fn value_given<'t>(
    alloc: Global,
    table: &'t ClassTable,
    locals: &mut Vec<(Name, Slot)>,
    naming: Box<Naming<'t>>,
    place: Place,
    value: Value,
) -> Result<Step<'t>, OutOfMemory>
    ensures { IfOk result (λ s. (asker : Asker) → code_of (under (table_spec table.entry.now) asker) locals.new.items s ≡ value_given (table_spec table.entry.now) naming.entry.value.class (maybe_type naming.entry.value.declared) place (nest_of naming.entry.value.nest) naming.entry.value.outer.items value locals.old.items) }
{
    let scope = Some(naming.class);
    let nest = naming.nest;
    let declared = naming.declared;
    *locals = Box::into_inner(naming).into_outer();
    let tested = fitted_maybe(alloc, table, locals, nest, scope, declared, place, value)?;
    Ok(tested.into_step(place))
}
