// Whether a new object keeps its invariants.

ghost use Rattle.std.specs.Prelude.{◌≡◌, IfOk};
ghost use Rattle.spec_table.specs.Tables.{table_spec};
ghost use Rattle.stmt_meaning.specs.Keeping.{holding_of, keeps};

use eval_data::Held;
use kept_invariants::{has_invariants, keeps};
use spec_table::ClassTable;
use std::alloc::Global;
use step_data::Making;
use vdm_kinds::{OutOfMemory, VarRef};
use vdm_values::Slot;

/// Whether all invariants of the object hold where its variables have the slots that were made.
pub(crate) fn keeps_made(
    alloc: Global,
    table: &ClassTable,
    making: &Making<'_>,
) -> Result<bool, OutOfMemory>
    ensures { IfOk result (λ kept. kept ≡ keeps (table_spec table.now) making.now.object.value.class (holding_of making.now.variables.now making.now.slots.items)) }
{
    let class = making.object.class;
    // Of most classes there is nothing to keep, and so nothing to copy.
    if !has_invariants(table, class) {
        return Ok(true);
    }
    let held = held_of(alloc, making.variables, making.slots.as_slice())?;
    keeps(alloc, table, class, held)
}

/// Copies of the slots, as what the variables hold.
fn held_of(alloc: Global, variables: &[VarRef], slots: &[Slot]) -> Result<Held, OutOfMemory>
    ensures { IfOk result (λ held. held.variables.items ≡ holding_of variables.now slots.now) }
{
    let mut pairs = Vec::with_capacity(alloc, slots.len())?;
    let mut left = slots;
    for variable in variables {
        let Some((slot, others)) = left.split_first() else {
            return Ok(Held { variables: pairs });
        };
        pairs.push((*variable, slot.copy(alloc)?))?;
        left = others;
    }
    Ok(Held { variables: pairs })
}
