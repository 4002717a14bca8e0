// Variables and operations: the first form that is not built.

ghost use Rattle.std.specs.Prelude.{◌≡◌, map};
ghost use Rattle.text_phases.specs.Built.{unbuilt_in_variable, unbuilt_in_item, unbuilt_in_items, unbuilt_in_body, unbuilt_in_operation, unbuilt_in_operations};
ghost use Rattle.vdm_tree.specs.StmtView.{boxed_stmt};
ghost use Rattle.vdm_tree.specs.ClassView.{variable_view, variable_item_view, operation_view, body_view};

use crate::definitions::{unbuilt_if_given, unbuilt_in_each_pattern};
use crate::statements::unbuilt_in_stmt;
use built_exprs::{unbuilt_in_initial, unbuilt_in_object_invariant};
use vdm_kinds::Place;
use vdm_tree::{Body, OpDef, Stmt, VarDef, VariableItem};

// ---- variables

fn unbuilt_in_variable(variable: &VarDef) -> Option<Place>
    ensures { result ≡ unbuilt_in_variable (variable_view variable.now) }
{
    unbuilt_in_initial(variable.access.is_static, &variable.initial)
}

fn unbuilt_in_item(item: &VariableItem) -> Option<Place>
    ensures { result ≡ unbuilt_in_item (variable_item_view item.now) }
{
    match item {
        VariableItem::Variable(variable) => unbuilt_in_variable(variable),
        VariableItem::Invariant(condition, _) => unbuilt_in_object_invariant(condition),
    }
}

/// Where the first form stands that is not built among variables.
pub(crate) fn unbuilt_in_items(items: &[VariableItem]) -> Option<Place>
    ensures { result ≡ unbuilt_in_items (map variable_item_view items.now) }
{
    for item in items {
        if let Some(place) = unbuilt_in_item(item) {
            return Some(place);
        }
    }
    None
}

// ---- operations

fn unbuilt_in_body(body: &Body<Box<Stmt>>) -> Option<Place>
    ensures { result ≡ unbuilt_in_body (body_view boxed_stmt body.now) }
{
    match body {
        Body::Written(body) => unbuilt_in_stmt(body),
        Body::NotYetSpecified | Body::SubclassResponsibility => None,
    }
}

fn unbuilt_in_operation(operation: &OpDef) -> Option<Place>
    ensures { result ≡ unbuilt_in_operation (operation_view operation.now) }
{
    unbuilt_in_each_pattern(&operation.patterns)
        .or(unbuilt_in_body(&operation.body))
        .or(unbuilt_if_given(&operation.pre))
        .or(unbuilt_if_given(&operation.post))
}

/// Where the first form stands that is not built among operations.
pub(crate) fn unbuilt_in_operations(operations: &[OpDef]) -> Option<Place>
    ensures { result ≡ unbuilt_in_operations (map operation_view operations.now) }
{
    for operation in operations {
        if let Some(place) = unbuilt_in_operation(operation) {
            return Some(place);
        }
    }
    None
}
