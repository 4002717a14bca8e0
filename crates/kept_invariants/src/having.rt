// Whether there are invariants at all.

ghost use Rattle.std.specs.Prelude.{◌≡◌, map};
ghost use Rattle.std.specs.List.{flat_map, list_any};
ghost use Rattle.vdm_tree.specs.ClassView.{block_view, class_view, variable_item_view};
ghost use Rattle.stmt_meaning.specs.Keeping.{class_conditions, conditions_among, conditions_in};
ghost use Rattle.spec_table.specs.Tables.{table_spec};
ghost use Rattle.kept_invariants.specs.Presence.{has_any, has_invariants, has_own, is_invariant};

use spec_table::ClassTable;
use vdm_kinds::Name;
use vdm_tree::{Block, ClassDef, VariableItem};

/// Whether the class or one of its ancestors has an instance invariant. Where none has, `keeps` is always true.
pub fn has_invariants(table: &ClassTable, class: Name) -> bool
    ensures { result ≡ has_invariants (table_spec table.now) class }
{
    some_has(table, table.ancestors(class))
}

fn some_has(table: &ClassTable, classes: &[Name]) -> bool
    ensures { result ≡ list_any (has_own (table_spec table.now)) classes.now }
{
    for class in classes {
        if has_own(table, *class) {
            return true;
        }
    }
    false
}

fn has_own(table: &ClassTable, class: Name) -> bool
    ensures { result ≡ has_own (table_spec table.now) class }
{
    match table.number(class) {
        Some(_) => class_has(table.class(class)),
        None => false,
    }
}

fn class_has(class: &ClassDef) -> bool
    ensures { result ≡ has_any (class_conditions (class_view class.now)) }
{
    for block in &class.blocks {
        if block_has(block) {
            return true;
        }
    }
    false
}

fn block_has(block: &Block) -> bool
    ensures { result ≡ has_any (conditions_in (block_view block.now)) }
{
    match block {
        Block::Variables(items, _) => one_has(items.as_slice()),
        Block::Types(_, _) | Block::Values(_, _) | Block::Functions(_, _) => false,
        Block::Operations(_, _) | Block::Thread(_, _) | Block::Sync(_, _) => false,
    }
}

fn one_has(items: &[VariableItem]) -> bool
    ensures { result ≡ has_any (conditions_among (map variable_item_view items.now)) }
{
    for item in items {
        if is_invariant(item) {
            return true;
        }
    }
    false
}

fn is_invariant(item: &VariableItem) -> bool
    ensures { result ≡ is_invariant (variable_item_view item.now) }
{
    match item {
        VariableItem::Variable(_) => false,
        VariableItem::Invariant(_, _) => true,
    }
}
