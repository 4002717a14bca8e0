// The alternatives of `cases`.

ghost use Rattle.std.specs.Prelude.{◌≡◌, ◌+◌, ◌≤◌, IfOk};
ghost use Rattle.abstract_syntax.specs.Classes.{SpecTree};
ghost use Rattle.expr_tree.specs.View.{pattern_views, pattern_trees};
ghost use Rattle.vdm_tree.specs.StmtView.{boxed_stmt, maybe_stmt};
ghost use Rattle.node_meaning.specs.Envs.{Locals};
ghost use Rattle.node_meaning.specs.Tasks.{with_value};
ghost use Rattle.stmt_meaning.specs.Blocks.{alternatives as alternatives_plan, one_met, otherwise_of};
ghost use Rattle.stmt_meaning.specs.Flows.{stmt_within};
ghost use Rattle.spec_table.specs.Tables.{table_spec};
ghost use Rattle.eval_data.specs.Parts.{here_of, flow_of};
ghost use Rattle.step_data.specs.Actions.{action_code, height};
ghost use Rattle.step_data.specs.Meetings.{cases_left};
ghost use Rattle.meet_steps.specs.Onwards.{case_count, end_height, left_in, onward_code, pattern_count};

use crate::meeting::followed;
use crate::onward::Onward;
use eval_data::{Flow, Here};
use expr_tree::Pattern;
use flow_values::{Came, value_in};
use spec_table::ClassTable;
use std::alloc::Global;
use step_data::{Action, Follow, Meeting, Task};
use vdm_kinds::{Name, OutOfMemory, Place, RunFault};
use vdm_tree::{Stmt, StmtCase};
use vdm_values::{Slot, Value};

/// What came meets the patterns of the alternatives, where it is a value; so many locals stand before those that they bind.
pub fn alternatives<'t>(
    alloc: Global,
    table: &ClassTable,
    locals: &mut Vec<(Name, Slot)>,
    here: Here<'t>,
    cases: &'t [StmtCase],
    others: &'t Option<Box<Stmt>>,
    count: usize,
    place: Place,
    flow: Flow,
) -> Result<Action<'t>, OutOfMemory>
    ensures same { IfOk result (λ a. action_code (table_spec table.now) locals.new.items a ≡ with_value place (alternatives_plan (table_spec table.now) (here_of here.entry) place count (cases_left cases.entry.now) (maybe_stmt others.entry.now)) (flow_of flow locals.old.items)) }
    ensures falls { IfOk result (λ a. height a ≤ 1) }
{
    match value_in(flow) {
        Came::Is(value) => {
            let onward = first_case(here, place, value, cases, others, count);
            followed(alloc, table, locals, onward)
        }
        Came::Nothing => Ok(Action::Fail(RunFault::Undefined, place)),
        Came::Exits(value, from) => Ok(Action::Finish(Flow::Exited(value, from))),
    }
}

/// The next pattern of an alternative, or what stands behind it.
pub(crate) fn next_case<'t>(
    here: Here<'t>,
    place: Place,
    value: Value,
    patterns: &'t [Pattern],
    body: &'t Box<Stmt>,
    more: &'t [StmtCase],
    others: &'t Option<Box<Stmt>>,
    count: usize,
) -> Onward<'t>
    ensures same { (spec : SpecTree) (locals : Locals) → onward_code spec locals result ≡ one_met spec (here_of here.entry) place value (pattern_trees (pattern_views patterns.now)) (stmt_within (here_of here.entry) count (boxed_stmt body.now)) (alternatives_plan spec (here_of here.entry) place count (cases_left more.now) (maybe_stmt others.now) value) locals }
    ensures falls { end_height result ≤ 1 }
    ensures fewer { left_in result ≤ pattern_count (pattern_trees (pattern_views patterns.now)) + case_count (cases_left more.now) }
{
    match patterns.split_first() {
        Some((pattern, patterns)) => {
            let follow = Follow::Case(patterns, body, more, others, count);
            Onward::Meets(Meeting {
                here,
                place,
                pattern,
                value,
                follow,
            })
        }
        None => first_case(here, place, value, more, others, count),
    }
}

/// The first pattern of alternatives, or what stands behind all of them.
fn first_case<'t>(
    here: Here<'t>,
    place: Place,
    value: Value,
    cases: &'t [StmtCase],
    others: &'t Option<Box<Stmt>>,
    count: usize,
) -> Onward<'t>
    ensures same { (spec : SpecTree) (locals : Locals) → onward_code spec locals result ≡ alternatives_plan spec (here_of here.entry) place count (cases_left cases.now) (maybe_stmt others.now) value locals }
    ensures falls { end_height result ≤ 1 }
    ensures fewer { left_in result ≤ case_count (cases_left cases.now) }
{
    let mut left = cases;
    while let Some((case, more)) = left.split_first() {
        if let Some((pattern, patterns)) = case.patterns.as_slice().split_first() {
            let follow = Follow::Case(patterns, body_of(case), more, others, count);
            return Onward::Meets(Meeting {
                here,
                place,
                pattern,
                value,
                follow,
            });
        }
        left = more;
    }
    Onward::Ends(otherwise(here, others))
}

// The statement of an alternative.
fn body_of<'t>(case: &'t StmtCase) -> &'t Box<Stmt>
    ensures { boxed_stmt result.now ≡ boxed_stmt case.now.body }
{
    &case.body
}

/// The statement behind all alternatives, or nothing.
fn otherwise<'t>(here: Here<'t>, others: &'t Option<Box<Stmt>>) -> Action<'t>
    ensures same { (spec : SpecTree) (locals : Locals) → action_code spec locals result ≡ otherwise_of (here_of here.entry) (maybe_stmt others.entry.now) locals }
    ensures falls { height result ≤ 1 }
{
    match others {
        Some(statement) => Action::Become(Task::Stmt(here, statement)),
        None => Action::Finish(Flow::Next),
    }
}
