// Expressions that need nothing from outside.

ghost use Rattle.std.specs.Prelude.{◌≡◌, []};
ghost use Rattle.expr_tree.specs.View.{view_of};
ghost use Rattle.spec_table.specs.Tables.{table_spec};
ghost use Rattle.expr_eval.specs.Evaluations.{evaluation, PureResult};
ghost use Rattle.expr_eval.specs.Turns.{pure_turn};

use crate::env::Env;
use crate::eval::Eval;
use crate::turn::Turn;
use expr_tree::Expr;
use spec_table::ClassTable;
use std::alloc::Global;
use vdm_kinds::{Halt, RunFault};
use vdm_values::Value;

/// The value of an expression that needs nothing from outside, inside of so many tests of invariants of types; the units that it
/// takes are taken from the fuel.
///
/// # Errors
///
/// The fault of its meaning, and `Undefined` where it needs something all the same: nobody gives it.
pub fn run_pure(
    alloc: Global,
    table: &ClassTable,
    tree: &Expr,
    env: &Env,
    fuel: &mut u64,
    nest: u32,
) -> Result<Value, Halt<RunFault>>
    ensures { PureResult (evaluation (table_spec table.now) env.now nest (view_of tree.now) [] fuel.old) fuel.new result }
{
    let mut eval = Eval::new(alloc, table, tree, env, nest)?;
    let turn = eval.advance(alloc, fuel)?;
    outcome(turn)
}

/// The value or the fault; nobody gives what is needed.
fn outcome(turn: Turn) -> Result<Value, Halt<RunFault>>
    ensures { result ≡ pure_turn turn }
{
    match turn {
        Turn::Value(value) => Ok(value),
        Turn::Fault(fault, _) => Err(Halt::Of(fault)),
        Turn::Needs(_need) => Err(Halt::Of(RunFault::Undefined)),
    }
}
