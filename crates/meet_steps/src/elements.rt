// Loops over the elements of a set or a sequence.

ghost use Rattle.std.specs.Prelude.{◌≡◌, ◌≤◌, IfOk, length, reverse};
ghost use Rattle.abstract_syntax.specs.Classes.{SpecTree};
ghost use Rattle.expr_tree.specs.View.{pattern_view};
ghost use Rattle.vdm_tree.specs.StmtView.{boxed_stmt};
ghost use Rattle.node_meaning.specs.Envs.{Locals};
ghost use Rattle.node_meaning.specs.Tasks.{with_value};
ghost use Rattle.stmt_meaning.specs.Loops.{each_element, each_of_set, each_of_sequence, element_round};
ghost use Rattle.spec_table.specs.Tables.{table_spec};
ghost use Rattle.eval_data.specs.Parts.{here_of, flow_of};
ghost use Rattle.step_data.specs.Actions.{action_code, height};
ghost use Rattle.step_data.specs.Meetings.{element_then};
ghost use Rattle.meet_steps.specs.Onwards.{end_height, left_in, onward_code};

use crate::meeting::followed;
use crate::onward::Onward;
use eval_data::{Flow, Here};
use expr_tree::Pattern;
use flow_values::{Came, value_in};
use spec_table::ClassTable;
use std::alloc::Global;
use step_data::{Action, Elements, Follow, Meeting, Pending, Task, Waiting};
use vdm_kinds::{Name, OutOfMemory, Place, RunFault};
use vdm_tree::Stmt;
use vdm_values::{Node, Slot, Value};

/// What came is the set of a loop at the place.
pub fn elements_of_set<'t>(
    alloc: Global,
    table: &ClassTable,
    locals: &mut Vec<(Name, Slot)>,
    here: Here<'t>,
    pattern: &'t Box<Pattern>,
    body: &'t Box<Stmt>,
    place: Place,
    flow: Flow,
) -> Result<Action<'t>, OutOfMemory>
    ensures same { IfOk result (λ a. action_code (table_spec table.now) locals.new.items a ≡ with_value place (each_of_set (table_spec table.now) (here_of here.entry) place (pattern_view pattern.entry.now.value) (boxed_stmt body.entry.now)) (flow_of flow locals.old.items)) }
    ensures falls { IfOk result (λ a. height a ≤ 1) }
{
    match value_in(flow) {
        Came::Is(value) => { in_set(alloc, table, locals, here, pattern, body, place, value) }
        Came::Nothing => Ok(Action::Fail(RunFault::Undefined, place)),
        Came::Exits(value, from) => Ok(Action::Finish(Flow::Exited(value, from))),
    }
}

fn in_set<'t>(
    alloc: Global,
    table: &ClassTable,
    locals: &mut Vec<(Name, Slot)>,
    here: Here<'t>,
    pattern: &'t Box<Pattern>,
    body: &'t Box<Stmt>,
    place: Place,
    value: Value,
) -> Result<Action<'t>, OutOfMemory>
    ensures same { IfOk result (λ a. action_code (table_spec table.now) locals.new.items a ≡ each_of_set (table_spec table.now) (here_of here.entry) place (pattern_view pattern.entry.now.value) (boxed_stmt body.entry.now) value locals.old.items) }
    ensures falls { IfOk result (λ a. height a ≤ 1) }
{
    let node = value.into_node(alloc)?;
    match node {
        Node::Set(values) => in_order(alloc, table, locals, here, pattern, body, place, values),
        _ => Ok(Action::Fail(RunFault::TypeFault, place)),
    }
}

/// What came is the sequence of a loop at the place.
pub fn elements_of_sequence<'t>(
    alloc: Global,
    table: &ClassTable,
    locals: &mut Vec<(Name, Slot)>,
    here: Here<'t>,
    pattern: &'t Box<Pattern>,
    body: &'t Box<Stmt>,
    place: Place,
    flow: Flow,
) -> Result<Action<'t>, OutOfMemory>
    ensures same { IfOk result (λ a. action_code (table_spec table.now) locals.new.items a ≡ with_value place (each_of_sequence (table_spec table.now) (here_of here.entry) place (pattern_view pattern.entry.now.value) (boxed_stmt body.entry.now)) (flow_of flow locals.old.items)) }
    ensures falls { IfOk result (λ a. height a ≤ 1) }
{
    match value_in(flow) {
        Came::Is(value) => { in_sequence(alloc, table, locals, here, pattern, body, place, value) }
        Came::Nothing => Ok(Action::Fail(RunFault::Undefined, place)),
        Came::Exits(value, from) => Ok(Action::Finish(Flow::Exited(value, from))),
    }
}

fn in_sequence<'t>(
    alloc: Global,
    table: &ClassTable,
    locals: &mut Vec<(Name, Slot)>,
    here: Here<'t>,
    pattern: &'t Box<Pattern>,
    body: &'t Box<Stmt>,
    place: Place,
    value: Value,
) -> Result<Action<'t>, OutOfMemory>
    ensures same { IfOk result (λ a. action_code (table_spec table.now) locals.new.items a ≡ each_of_sequence (table_spec table.now) (here_of here.entry) place (pattern_view pattern.entry.now.value) (boxed_stmt body.entry.now) value locals.old.items) }
    ensures falls { IfOk result (λ a. height a ≤ 1) }
{
    let node = value.into_node(alloc)?;
    match node {
        Node::Seq(values) => in_order(alloc, table, locals, here, pattern, body, place, values),
        _ => Ok(Action::Fail(RunFault::TypeFault, place)),
    }
}

/// These elements, in order.
fn in_order<'t>(
    alloc: Global,
    table: &ClassTable,
    locals: &mut Vec<(Name, Slot)>,
    here: Here<'t>,
    pattern: &'t Box<Pattern>,
    body: &'t Box<Stmt>,
    place: Place,
    values: Vec<Value>,
) -> Result<Action<'t>, OutOfMemory>
    ensures same { IfOk result (λ a. action_code (table_spec table.now) locals.new.items a ≡ each_element (table_spec table.now) (here_of here.entry) place (pattern_view pattern.entry.now.value) (boxed_stmt body.entry.now) (length locals.old.items) values.items locals.old.items) }
    ensures falls { IfOk result (λ a. height a ≤ 1) }
{
    let mut left = values;
    left.reverse();
    let onward = element_behind(here, place, pattern, body, locals.len(), left);
    followed(alloc, table, locals, onward)
}

/// Behind the body for one element the next one follows, unless the body ended.
pub fn next_element<'t>(
    alloc: Global,
    table: &ClassTable,
    locals: &mut Vec<(Name, Slot)>,
    elements: Box<Elements<'t>>,
    flow: Flow,
) -> Result<Action<'t>, OutOfMemory>
    ensures same { IfOk result (λ a. action_code (table_spec table.now) locals.new.items a ≡ element_then (table_spec table.now) elements.entry.value (flow_of flow locals.old.items)) }
    ensures falls { IfOk result (λ a. height a ≤ 1) }
{
    locals.truncate(elements.count);
    match flow {
        Flow::Next => elements_left(alloc, table, locals, elements),
        Flow::Gave(slot) => Ok(Action::Finish(Flow::Gave(slot))),
        Flow::Returned(slot) => Ok(Action::Finish(Flow::Returned(slot))),
        Flow::Exited(value, from) => Ok(Action::Finish(Flow::Exited(value, from))),
    }
}

fn elements_left<'t>(
    alloc: Global,
    table: &ClassTable,
    locals: &mut Vec<(Name, Slot)>,
    elements: Box<Elements<'t>>,
) -> Result<Action<'t>, OutOfMemory>
    ensures same { IfOk result (λ a. action_code (table_spec table.now) locals.new.items a ≡ each_element (table_spec table.now) (here_of elements.entry.value.here) elements.entry.value.place (pattern_view elements.entry.value.pattern.now) (boxed_stmt elements.entry.value.body.now) elements.entry.value.count (reverse elements.entry.value.values.items) locals.old.items) }
    ensures falls { IfOk result (λ a. height a ≤ 1) }
{
    let here = elements.here;
    let place = elements.place;
    let pattern = elements.pattern;
    let body = elements.body;
    let count = elements.count;
    let values = Box::into_inner(elements).into_values();
    let onward = element_behind(here, place, pattern, body, count, values);
    followed(alloc, table, locals, onward)
}

/// The next element, or the end of the loop.
pub(crate) fn element_behind<'t>(
    here: Here<'t>,
    place: Place,
    pattern: &'t Pattern,
    body: &'t Box<Stmt>,
    count: usize,
    left: Vec<Value>,
) -> Onward<'t>
    ensures same { (spec : SpecTree) (locals : Locals) → onward_code spec locals result ≡ each_element spec (here_of here.entry) place (pattern_view pattern.now) (boxed_stmt body.now) count (reverse left.items) locals }
    ensures falls { end_height result ≤ 1 }
    ensures fewer { left_in result ≤ length left.items }
{
    let mut left = left;
    match left.pop() {
        Some(value) => {
            let follow = Follow::Element(body, left, count);
            Onward::Meets(Meeting {
                here,
                place,
                pattern,
                value,
                follow,
            })
        }
        None => Onward::Ends(Action::Finish(Flow::Next)),
    }
}

/// The body for one element, and then those that are left.
pub(crate) fn element_body<'t>(
    alloc: Global,
    here: Here<'t>,
    place: Place,
    pattern: &'t Pattern,
    body: &'t Box<Stmt>,
    count: usize,
    left: Vec<Value>,
) -> Result<Action<'t>, OutOfMemory>
    ensures same { IfOk result (λ a. (spec : SpecTree) (locals : Locals) → action_code spec locals a ≡ element_round (here_of here.entry) count (boxed_stmt body.now) (each_element spec (here_of here.entry) place (pattern_view pattern.now) (boxed_stmt body.now) count (reverse left.items)) locals) }
    ensures falls { IfOk result (λ a. height a ≤ 1) }
{
    let elements = Box::new(
        alloc,
        Elements {
            here,
            place,
            pattern,
            body,
            count,
            values: left,
        },
    )?;
    Ok(Action::Part(
        Task::Stmt(here, body),
        Pending {
            waiting: Waiting::Element(elements),
        },
    ))
}
