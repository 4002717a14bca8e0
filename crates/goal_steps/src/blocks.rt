// Local variables of blocks.

ghost use Rattle.std.specs.Prelude.{◌≡◌, ◌≤◌, map, IfOk};
ghost use Rattle.abstract_syntax.specs.Classes.{SpecTree};
ghost use Rattle.type_tree.specs.TypeView.{type_view};
ghost use Rattle.vdm_tree.specs.StmtView.{dcl_view};
ghost use Rattle.spec_table.specs.Tables.{table_spec};
ghost use Rattle.plans.specs.Plans.{bind};
ghost use Rattle.node_meaning.specs.Envs.{no_nest};
ghost use Rattle.node_meaning.specs.Fitting.{typed};
ghost use Rattle.stmt_meaning.specs.Blocks.{block_of as block_plan, dcls_given, local_value};
ghost use Rattle.stmt_meaning.specs.Questions.{of_thread};
ghost use Rattle.eval_data.specs.Parts.{here_of, flow_of};
ghost use Rattle.fit_steps.specs.Tests.{tested_code};
ghost use Rattle.step_data.specs.Actions.{action_code, height};
ghost use Rattle.step_data.specs.Declarations.{local_came as came_plan, local_fits as fits_plan, locals_left, rest_of_block};
ghost use Rattle.step_data.specs.Parts.{statements_of};

use crate::initials::Initial;
use bind_steps::push_shared;
use eval_data::{Flow, Here, Nest};
use fit_steps::{Tested, fitted};
use flow_values::{Came, value_in};
use spec_table::ClassTable;
use std::alloc::Global;
use step_data::{Action, BlockRest, Declaring, Waiting};
use vdm_kinds::{Name, OutOfMemory, RunFault};
use vdm_tree::{Dcl, Stmt};
use vdm_values::{Slot, Value};

/// The local variables of a block, and then its statements.
pub fn block<'t>(
    alloc: Global,
    locals: &mut Vec<(Name, Slot)>,
    here: Here<'t>,
    dcls: &'t [Dcl],
    statements: &'t [Stmt],
) -> Result<Action<'t>, OutOfMemory>
    ensures same { IfOk result (λ a. (spec : SpecTree) → action_code spec locals.new.items a ≡ block_plan spec (here_of here.entry) (map dcl_view dcls.now) (statements_of statements.now) locals.old.items) }
    ensures falls { IfOk result (λ a. height a ≤ 2) }
{
    let rest = BlockRest {
        here,
        dcls,
        statements,
        count: locals.len(),
    };
    words_left(alloc, locals, dcls, rest)
}

/// The local variables of these words, and then the statements.
fn words_left<'t>(
    alloc: Global,
    locals: &mut Vec<(Name, Slot)>,
    dcls: &'t [Dcl],
    rest: BlockRest<'t>,
) -> Result<Action<'t>, OutOfMemory>
    ensures same { IfOk result (λ a. (spec : SpecTree) → action_code spec locals.new.items a ≡ dcls_given spec (here_of rest.entry.here) (map dcl_view dcls.now) (rest_of_block rest.entry) locals.old.items) }
    ensures falls { IfOk result (λ a. height a ≤ 2) }
{
    let mut left = dcls;
    while let Some((dcl, others)) = left.split_first() {
        left = others;
        if let Some(initial) = Initial::next(locals, dcl.locals.as_slice())? {
            return initial.evaluated(alloc, dcl.place, others, rest);
        }
    }
    Ok(Action::Block(rest))
}

/// The initial value of a local variable came.
pub fn local_came<'t>(
    alloc: Global,
    table: &'t ClassTable,
    locals: &mut Vec<(Name, Slot)>,
    declaring: Box<Declaring<'t>>,
    flow: Flow,
) -> Result<Action<'t>, OutOfMemory>
    ensures same { IfOk result (λ a. action_code (table_spec table.now) locals.new.items a ≡ came_plan (table_spec table.now) declaring.entry.value (flow_of flow locals.old.items)) }
    ensures falls { IfOk result (λ a. height a ≤ 2) }
{
    match value_in(flow) {
        Came::Is(value) => local_tested(alloc, table, locals, declaring, value),
        Came::Nothing => Ok(Action::Fail(RunFault::Undefined, declaring.place)),
        Came::Exits(value, from) => Ok(Action::Finish(Flow::Exited(value, from))),
    }
}

/// It is tested against its type, in the class of the block. No statement stands inside a test of a type.
fn local_tested<'t>(
    alloc: Global,
    table: &'t ClassTable,
    locals: &mut Vec<(Name, Slot)>,
    declaring: Box<Declaring<'t>>,
    value: Value,
) -> Result<Action<'t>, OutOfMemory>
    ensures same { IfOk result (λ a. action_code (table_spec table.now) locals.new.items a ≡ typed (table_spec table.now) no_nest (here_of declaring.entry.value.rest.here).scope (type_view declaring.entry.value.declared.now) declaring.entry.value.place (local_value declaring.entry.value.name (locals_left (table_spec table.now) declaring.entry.value)) value locals.old.items) }
    ensures falls { IfOk result (λ a. height a ≤ 2) }
{
    let nest = Nest::none();
    let scope = declaring.rest.here.scope;
    let declared = declaring.declared;
    let place = declaring.place;
    let tested = fitted(alloc, table, locals, nest, scope, declared, place, value)?;
    local_decided(alloc, locals, declaring, tested)
}

/// It fits its type, or does not, or an invariant is asked.
fn local_decided<'t>(
    alloc: Global,
    locals: &mut Vec<(Name, Slot)>,
    declaring: Box<Declaring<'t>>,
    tested: Tested<'t>,
) -> Result<Action<'t>, OutOfMemory>
    ensures same { IfOk result (λ a. (spec : SpecTree) → action_code spec locals.new.items a ≡ bind (tested_code (of_thread spec) declaring.entry.value.place locals.old.items tested.entry) (fits_plan spec declaring.entry.value)) }
    ensures falls { IfOk result (λ a. height a ≤ 2) }
{
    match tested {
        Tested::Gives(value) => local_held(alloc, locals, Box::into_inner(declaring), value),
        Tested::Fails(fault) => Ok(Action::Fail(fault, declaring.place)),
        Tested::Asks(here, tree, inner) => {
            Action::fit(alloc, here, tree, inner, Waiting::LocalFits(declaring))
        }
    }
}

/// The initial value of a local variable fits its type.
pub fn local_fits<'t>(
    alloc: Global,
    locals: &mut Vec<(Name, Slot)>,
    declaring: Box<Declaring<'t>>,
    flow: Flow,
) -> Result<Action<'t>, OutOfMemory>
    ensures same { IfOk result (λ a. (spec : SpecTree) → action_code spec locals.new.items a ≡ fits_plan spec declaring.entry.value (flow_of flow locals.old.items)) }
    ensures falls { IfOk result (λ a. height a ≤ 2) }
{
    match value_in(flow) {
        Came::Is(value) => local_held(alloc, locals, Box::into_inner(declaring), value),
        Came::Nothing => Ok(Action::Fail(RunFault::Undefined, declaring.place)),
        Came::Exits(value, from) => Ok(Action::Finish(Flow::Exited(value, from))),
    }
}

/// It is the local variable's value, and the variables behind it follow.
fn local_held<'t>(
    alloc: Global,
    locals: &mut Vec<(Name, Slot)>,
    declaring: Declaring<'t>,
    value: Value,
) -> Result<Action<'t>, OutOfMemory>
    ensures same { IfOk result (λ a. (spec : SpecTree) → action_code spec locals.new.items a ≡ local_value declaring.entry.name (locals_left spec declaring.entry) value locals.old.items) }
    ensures falls { IfOk result (λ a. height a ≤ 2) }
{
    push_shared(alloc, locals, declaring.name, value)?;
    match Initial::next(locals, declaring.locals)? {
        Some(initial) => initial.evaluated(alloc, declaring.place, declaring.dcls, declaring.rest),
        None => words_left(alloc, locals, declaring.dcls, declaring.rest),
    }
}
