// Nodes that make or change a record: their parts come first, from left to right.

ghost use Rattle.std.specs.Prelude.{◌≡◌, IfOk, [], map};
ghost use Rattle.abstract_syntax.specs.Expressions.{one_expr};
ghost use Rattle.expr_tree.specs.View.{boxed_view, expr_trees, field_value_trees, field_value_view, view_of, views_of};
ghost use Rattle.spec_table.specs.Tables.{table_spec};
ghost use Rattle.node_meaning.specs.Envs.{Locals};
ghost use Rattle.node_meaning.specs.Needs.{Asker, Setting};
ghost use Rattle.node_meaning.specs.Records.{field_exprs, field_names, record_changed, record_made};
ghost use Rattle.node_meaning.specs.Strict.{collected, with_others};
ghost use Rattle.node_meaning.specs.Tasks.{evaluated};
ghost use Rattle.eval_data.specs.Parts.{here_of, parts_of};
ghost use Rattle.eval_data.specs.Steps.{code_of, then_of};
ghost use Rattle.fit_steps.specs.Tests.{under};

use crate::making::record_made;
use eval_data::{Frame, Here, Parts, Step, Then};
use expr_tree::{Expr, FieldValue};
use spec_table::ClassTable;
use std::alloc::Global;
use value_steps::next_part;
use vdm_kinds::{Name, OutOfMemory, Place, TypeName};
use vdm_values::Slot;

/// `mk_T(a, b)` or ``mk_C`T(a, b)``. Of no values the record is made at once.
pub fn make_record<'t>(
    alloc: Global,
    table: &'t ClassTable,
    locals: &mut Vec<(Name, Slot)>,
    here: Here<'t>,
    type_name: TypeName,
    arguments: &'t Vec<Expr>,
    place: Place,
) -> Result<Step<'t>, OutOfMemory>
    ensures { IfOk result (λ s. (asker : Asker) → code_of (under (table_spec table.entry.now) asker) locals.new.items s ≡ collected (here_of here.entry) place (expr_trees (views_of arguments.entry.now.items)) [] (record_made (table_spec table.entry.now) (here_of here.entry).nest (here_of here.entry).scope type_name place) locals.old.items) }
{
    match next_part(Parts::Items(arguments, 0)) {
        None => {
            let values = Vec::new(alloc);
            record_made(
                alloc, table, locals, here.nest, here.scope, type_name, place, values,
            )
        }
        Some((tree, rest)) => {
            let then = Then::Record(type_name);
            first_part(alloc, here, place, tree, rest, then)
        }
    }
}

/// `mu(r, f |-> a)`: the record first, and then the values of the fields.
pub fn modify_record<'t>(
    alloc: Global,
    here: Here<'t>,
    target: &'t Box<Expr>,
    changes: &'t [FieldValue],
    place: Place,
) -> Result<Step<'t>, OutOfMemory>
    ensures { IfOk result (λ s. (setting : Setting) (locals : Locals) → code_of setting locals s ≡ collected (here_of here.entry) place (one_expr (boxed_view target.entry.now) (field_exprs (field_value_trees (map field_value_view changes.entry.now)))) [] (record_changed setting.spec (here_of here.entry).nest (field_names (field_value_trees (map field_value_view changes.entry.now))) place) locals) }
{
    let then = Then::Changes(changes);
    first_part(
        alloc,
        here,
        place,
        boxed(target),
        Parts::Changes(changes),
        then,
    )
}

/// The first of the parts of a node; its value stands before those of the others.
fn first_part<'t>(
    alloc: Global,
    here: Here<'t>,
    place: Place,
    tree: &'t Expr,
    rest: Parts<'t>,
    then: Then<'t>,
) -> Result<Step<'t>, OutOfMemory>
    ensures { IfOk result (λ s. (setting : Setting) (locals : Locals) → code_of setting locals s ≡ evaluated (here_of here.entry) locals (view_of tree.entry.now) place (with_others (here_of here.entry) place (parts_of rest.entry) [] (then_of setting then.entry (here_of here.entry) place))) }
{
    let frame = Frame::collecting(alloc, here, place, rest, Vec::new(alloc), then)?;
    Ok(Step::Part(here, tree, frame))
}

/// What the reference leads to.
fn boxed<'t>(tree: &'t Box<Expr>) -> &'t Expr
    ensures { view_of result.now ≡ boxed_view tree.now }
{
    tree
}
