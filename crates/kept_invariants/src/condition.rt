// One condition, which is evaluated alone.

ghost use Rattle.std.specs.Prelude.{◌≡◌, IfOk};
ghost use Rattle.expr_tree.specs.View.{boxed_view, view_of};
ghost use Rattle.spec_table.specs.Tables.{table_spec};
ghost use Rattle.kept_invariants.specs.Guarding.{holds_in, is_kept_by, is_read, is_true};

use eval_data::Need;
use expr_eval::{Env, Eval, Turn};
use expr_tree::Expr;
use spec_table::ClassTable;
use std::alloc::Global;
use vdm_kinds::OutOfMemory;
use vdm_values::{Node, Value};

/// Whether the condition holds that stands there.
pub(crate) fn condition_holds(
    alloc: Global,
    table: &ClassTable,
    condition: &Box<Expr>,
    env: &Env,
) -> Result<bool, OutOfMemory>
    ensures { IfOk result (λ kept. kept ≡ holds_in (table_spec table.now) env.now (boxed_view condition.now)) }
{
    expression_holds(alloc, table, condition, env)
}

fn expression_holds(
    alloc: Global,
    table: &ClassTable,
    condition: &Expr,
    env: &Env,
) -> Result<bool, OutOfMemory>
    ensures { IfOk result (λ kept. kept ≡ holds_in (table_spec table.now) env.now (view_of condition.now)) }
{
    // Each invariant has units of its own, so that what it comes to depends on its object alone.
    let mut fuel = 100_000;
    let mut eval = Eval::new(alloc, table, condition, env, 0)?;
    let turn = eval.advance(alloc, &mut fuel)?;
    Ok(is_kept(&turn))
}

/// Whether the condition holds, by the first turn of its evaluation.
fn is_kept(turn: &Turn) -> bool
    ensures { result ≡ is_kept_by turn.now }
{
    match turn {
        // What is read is unset, else it would be held.
        Turn::Needs(need) => is_read(need),
        Turn::Value(value) => is_true(value),
        Turn::Fault(_, _) => false,
    }
}

fn is_read(need: &Need) -> bool
    ensures { result ≡ is_read need.now }
{
    matches!(need, Need::Read(_, _))
}

fn is_true(value: &Value) -> bool
    ensures { result ≡ is_true value.now }
{
    match value.node() {
        Node::Bool(truth) => *truth,
        _ => false,
    }
}
