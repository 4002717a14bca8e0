// The invariants of an object: those of its class and of all ancestors.

ghost use Rattle.std.specs.Prelude.{◌≡◌, IfOk};
ghost use Rattle.stmt_meaning.specs.Keeping.{keeps};
ghost use Rattle.spec_table.specs.Tables.{table_spec};
ghost use Rattle.kept_invariants.specs.Guarding.{line_holds};

use crate::own::named_hold;
use eval_data::Held;
use expr_eval::Env;
use patterns::BindList;
use spec_table::ClassTable;
use std::alloc::Global;
use vdm_kinds::{Name, OutOfMemory};

/// Whether all invariants of an object of the class hold where its variables hold this. One that reads a variable that is unset counts
/// as held, and one that has no value as broken.
///
/// # Errors
/// Want of memory.
pub fn keeps(
    alloc: Global,
    table: &ClassTable,
    class: Name,
    held: Held,
) -> Result<bool, OutOfMemory>
    ensures { IfOk result (λ kept. kept ≡ keeps (table_spec table.now) class held.variables.items) }
{
    let env = Env {
        scope: None,
        own: Some(class),
        me: None,
        locals: BindList::from_vec(Vec::new(alloc)),
        held: Some(held),
    };
    line_holds(alloc, table, table.ancestors(class), env)
}

/// Whether those hold that stand in the classes of these names.
fn line_holds(
    alloc: Global,
    table: &ClassTable,
    classes: &[Name],
    env: Env,
) -> Result<bool, OutOfMemory>
    ensures { IfOk result (λ kept. kept ≡ line_holds (table_spec table.now) env classes.now) }
{
    let mut env = env;
    for class in classes {
        env.scope = Some(*class);
        if !named_hold(alloc, table, *class, &env)? {
            return Ok(false);
        }
    }
    Ok(true)
}
