// The invariants that stand in one class.

ghost use Rattle.std.specs.Prelude.{◌≡◌, map, IfOk};
ghost use Rattle.std.specs.List.{flat_map};
ghost use Rattle.vdm_tree.specs.ClassView.{block_view, class_view, variable_item_view};
ghost use Rattle.stmt_meaning.specs.Keeping.{class_conditions, conditions_among, conditions_in};
ghost use Rattle.spec_table.specs.Tables.{table_spec};
ghost use Rattle.kept_invariants.specs.Guarding.{all_hold_in, item_holds, own_conditions};

use crate::condition::condition_holds;
use expr_eval::Env;
use spec_table::ClassTable;
use std::alloc::Global;
use vdm_kinds::{Name, OutOfMemory};
use vdm_tree::{Block, ClassDef, VariableItem};

/// Whether the invariants hold that stand in the class of the name.
pub(crate) fn named_hold(
    alloc: Global,
    table: &ClassTable,
    class: Name,
    env: &Env,
) -> Result<bool, OutOfMemory>
    ensures { IfOk result (λ kept. kept ≡ all_hold_in (table_spec table.now) env.now (own_conditions (table_spec table.now) class)) }
{
    match table.number(class) {
        Some(_) => class_holds(alloc, table, table.class(class), env),
        None => Ok(true),
    }
}

fn class_holds(
    alloc: Global,
    table: &ClassTable,
    class: &ClassDef,
    env: &Env,
) -> Result<bool, OutOfMemory>
    ensures { IfOk result (λ kept. kept ≡ all_hold_in (table_spec table.now) env.now (class_conditions (class_view class.now))) }
{
    blocks_hold(alloc, table, class.blocks.as_slice(), env)
}

fn blocks_hold(
    alloc: Global,
    table: &ClassTable,
    blocks: &[Block],
    env: &Env,
) -> Result<bool, OutOfMemory>
    ensures { IfOk result (λ kept. kept ≡ all_hold_in (table_spec table.now) env.now (flat_map conditions_in (map block_view blocks.now))) }
{
    for block in blocks {
        if !block_holds(alloc, table, block, env)? {
            return Ok(false);
        }
    }
    Ok(true)
}

fn block_holds(
    alloc: Global,
    table: &ClassTable,
    block: &Block,
    env: &Env,
) -> Result<bool, OutOfMemory>
    ensures { IfOk result (λ kept. kept ≡ all_hold_in (table_spec table.now) env.now (conditions_in (block_view block.now))) }
{
    match block {
        Block::Variables(items, _) => items_hold(alloc, table, items.as_slice(), env),
        Block::Types(_, _) | Block::Values(_, _) | Block::Functions(_, _) => Ok(true),
        Block::Operations(_, _) | Block::Thread(_, _) | Block::Sync(_, _) => Ok(true),
    }
}

fn items_hold(
    alloc: Global,
    table: &ClassTable,
    items: &[VariableItem],
    env: &Env,
) -> Result<bool, OutOfMemory>
    ensures { IfOk result (λ kept. kept ≡ all_hold_in (table_spec table.now) env.now (conditions_among (map variable_item_view items.now))) }
{
    for item in items {
        if !item_holds(alloc, table, item, env)? {
            return Ok(false);
        }
    }
    Ok(true)
}

fn item_holds(
    alloc: Global,
    table: &ClassTable,
    item: &VariableItem,
    env: &Env,
) -> Result<bool, OutOfMemory>
    ensures { IfOk result (λ kept. kept ≡ item_holds (table_spec table.now) env.now (variable_item_view item.now)) }
{
    match item {
        VariableItem::Variable(_) => Ok(true),
        VariableItem::Invariant(condition, _) => condition_holds(alloc, table, condition, env),
    }
}
