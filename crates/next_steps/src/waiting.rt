// What is done with what came of a part.

ghost use Rattle.std.specs.Prelude.{◌≡◌, ◌<◌, ◌≤◌, IfOk};
ghost use Rattle.abstract_syntax.specs.Classes.{SpecTree};
ghost use Rattle.node_meaning.specs.Envs.{Locals};
ghost use Rattle.spec_table.specs.Tables.{table_spec};
ghost use Rattle.eval_data.specs.Parts.{flow_of, here_of};
ghost use Rattle.eval_data.specs.Steps.{after_need as after_plan};
ghost use Rattle.step_data.specs.Actions.{action_code, waiting_then, waiting_weight, busy, height, round_done as done_plan};
ghost use Rattle.step_data.specs.Parts.{round_of};

use crate::values::returned_flow;
use call_steps::{argument_fits, body_left, parameter_came, post_came, pre_came, result_fits};
use eval_data::{After, Flow, Here};
use eval_steps::then_of as expression_then;
use flow_steps::{
    at_last, back, branch_decided, called, cut, exit_with, unless_ended, unless_replaced,
};
use goal_steps::{
    assign_value, goal_fits, index_came, join_came, local_came, local_fits, store_value,
};
use loop_steps::{again, by_number, counted, first_number, last_number, while_decided};
use main_steps::{ended as main_ended, static_came, static_fits};
use meet_steps::{
    alternatives, caught, defined, defined_fits, elements_of_sequence, elements_of_set, found,
    given, next_element, trapped,
};
use name_steps::after_need;
use object_steps::{initialised, slot_fits};
use spec_table::ClassTable;
use std::alloc::Global;
use step_data::{Action, Round, Waiting};
use stmt_steps::{start, start_all};
use vdm_kinds::{Name, OutOfMemory, Place};
use vdm_values::Slot;

/// What is done with what came of the part.
pub fn then_of<'t>(
    alloc: Global,
    table: &'t ClassTable,
    locals: &mut Vec<(Name, Slot)>,
    waiting: Waiting<'t>,
    flow: Flow,
) -> Result<Action<'t>, OutOfMemory>
    ensures same { IfOk result (λ a. action_code (table_spec table.now) locals.new.items a ≡ waiting_then (table_spec table.now) waiting.entry (flow_of flow locals.old.items)) }
    ensures busy { IfOk result (λ a. busy a ≤ waiting_weight waiting.entry) }
    ensures falls { IfOk result (λ a. height a < waiting_weight waiting.entry) }
{
    match waiting {
        Waiting::Expr(frame) => {
            Ok(Action::of(expression_then(alloc, table, locals, frame, flow)?))
        }
        Waiting::After(after, place) => behind_need(alloc, after, place, flow),
        Waiting::Called => Ok(called(flow)),
        Waiting::Rest(here, statements, count) => {
            Ok(unless_ended(locals, here, statements, count, flow))
        }
        Waiting::Cut(count) => Ok(cut(locals, count, flow)),
        Waiting::Local(declaring) => local_came(alloc, table, locals, declaring, flow),
        Waiting::LocalFits(declaring) => local_fits(alloc, locals, declaring, flow),
        Waiting::Assign(here, goal, place) => {
            assign_value(alloc, table, locals, here, goal, place, flow)
        }
        Waiting::Store(goal, place) => store_value(alloc, locals, goal, place, flow),
        Waiting::Index(assigning) => index_came(alloc, table, locals, assigning, flow),
        Waiting::Join(assigning) => join_came(alloc, table, locals, assigning, flow),
        Waiting::GoalFits(assigning) => goal_fits(alloc, table, locals, assigning, flow),
        Waiting::Return(place) => Ok(returned_flow(place, flow)),
        Waiting::Argument(requesting, tested, place) => {
            argument_fits(alloc, table, locals, requesting, tested, place, flow)
        }
        Waiting::Back(saved) => Ok(back(locals, saved, flow)),
        Waiting::Parameters(binding) => parameter_came(alloc, table, locals, binding, flow),
        Waiting::Pre(call) => Ok(pre_came(locals.as_slice(), call, flow)),
        Waiting::Body(call, count) => body_left(alloc, table, locals, call, count, flow),
        Waiting::Leave(call) => result_fits(alloc, locals, call, flow),
        Waiting::Post(call, slot) => Ok(post_came(call, slot, flow)),
        Waiting::Initial(making) => initialised(alloc, table, locals, making, flow),
        Waiting::Static(making, place) => static_came(alloc, table, locals, making, place, flow),
        Waiting::StaticFits(making, tested, place) => {
            static_fits(alloc, table, locals, making, tested, place, flow)
        }
        Waiting::Slots(making, tested) => slot_fits(alloc, table, locals, making, tested, flow),
        Waiting::Exit(place) => Ok(exit_with(place, flow)),
        Waiting::Branches(here, statement, more, otherwise, place) => {
            Ok(branch_decided(here, statement, more, otherwise, place, flow))
        }
        Waiting::Round(here, round) => round_done(alloc, table, locals, here, round, flow),
        Waiting::Again(here, condition, body, place) => {
            Ok(again(here, condition, body, place, flow))
        }
        Waiting::First(here, rest) => Ok(first_number(here, rest, flow)),
        Waiting::Last(here, rest, first) => last_number(alloc, locals, here, rest, first, flow),
        Waiting::By(here, rest, first, last) => {
            by_number(alloc, locals, here, rest, first, last, flow)
        }
        Waiting::AtLast(here, last, count) => Ok(at_last(locals, here, last, count, flow)),
        Waiting::Replaced(before) => Ok(unless_replaced(before, flow)),
        Waiting::Trapped(here, pattern, handler, place, count) => {
            trapped(
                alloc, table, locals, here, pattern, handler, place, count, flow,
            )
        }
        Waiting::Defined(defining) => defined(alloc, table, locals, defining, flow),
        Waiting::DefinedFits(defining) => defined_fits(alloc, table, locals, defining, flow),
        Waiting::Found(here, body, count) => Ok(found(here, body, count, flow)),
        Waiting::Subject(here, cases, others, count, place) => {
            alternatives(
                alloc, table, locals, here, cases, others, count, place, flow,
            )
        }
        Waiting::OfSet(here, pattern, body, place) => {
            elements_of_set(alloc, table, locals, here, pattern, body, place, flow)
        }
        Waiting::OfSequence(here, pattern, body, place) => {
            elements_of_sequence(alloc, table, locals, here, pattern, body, place, flow)
        }
        Waiting::Element(elements) => next_element(alloc, table, locals, elements, flow),
        Waiting::Given(value) => given(alloc, table, locals, value, flow),
        Waiting::Start(place) => Ok(start(place, flow)),
        Waiting::StartAll(place) => Ok(start_all(place, flow)),
        Waiting::End => Ok(main_ended(flow)),
    }
}

/// What is done behind the node with which a round began.
fn round_done<'t>(
    alloc: Global,
    table: &'t ClassTable,
    locals: &mut Vec<(Name, Slot)>,
    here: Here<'t>,
    round: Round<'t>,
    flow: Flow,
) -> Result<Action<'t>, OutOfMemory>
    ensures same { IfOk result (λ a. action_code (table_spec table.now) locals.new.items a ≡ done_plan (table_spec table.now) (here_of here.entry) (round_of round.entry) (flow_of flow locals.old.items)) }
    ensures falls { IfOk result (λ a. height a ≤ 1) }
{
    match round {
        Round::While(condition, body, place) => {
            Ok(while_decided(here, condition, body, place, flow))
        }
        Round::Counts(counting) => counted(alloc, locals, here, counting, flow),
        Round::Handles(handlers, count, _, place) => {
            caught(alloc, table, locals, here, handlers, count, place, flow)
        }
    }
}

/// What is done with what came of a need.
fn behind_need<'t>(
    alloc: Global,
    after: After<'t>,
    place: Place,
    flow: Flow,
) -> Result<Action<'t>, OutOfMemory>
    ensures same { IfOk result (λ a. (spec : SpecTree) (locals : Locals) → action_code spec locals a ≡ after_plan after.entry place (flow_of flow locals)) }
    ensures busy { IfOk result (λ a. busy a ≤ 1) }
    ensures falls { IfOk result (λ a. height a ≤ 1) }
{
    let step = after_need(alloc, after, place, flow)?;
    Ok(Action::of(step))
}
