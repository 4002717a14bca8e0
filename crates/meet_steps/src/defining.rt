// The definitions of `let` and `def`.

ghost use Rattle.std.specs.Prelude.{◌≡◌, ◌≤◌, IfOk, map, None, option_map};
ghost use Rattle.abstract_syntax.specs.Classes.{SpecTree};
ghost use Rattle.abstract_syntax.specs.Expressions.{no_defined, one_defined};
ghost use Rattle.type_tree.specs.TypeView.{type_view};
ghost use Rattle.expr_tree.specs.View.{boxed_view, pattern_view, defined_view, defined_trees};
ghost use Rattle.vdm_tree.specs.StmtView.{boxed_stmt};
ghost use Rattle.plans.specs.Plans.{bind};
ghost use Rattle.node_meaning.specs.Envs.{Locals};
ghost use Rattle.node_meaning.specs.Expressions.{definitions as definitions_plan};
ghost use Rattle.node_meaning.specs.Fitting.{fitted_maybe};
ghost use Rattle.node_meaning.specs.Needs.{Asker};
ghost use Rattle.node_meaning.specs.Tasks.{evaluated, with_value};
ghost use Rattle.stmt_meaning.specs.Flows.{stmt_within};
ghost use Rattle.stmt_meaning.specs.Questions.{of_thread};
ghost use Rattle.spec_table.specs.Tables.{table_spec};
ghost use Rattle.eval_data.specs.Parts.{here_of, flow_of, maybe_type};
ghost use Rattle.fit_steps.specs.Tests.{tested_code, under};
ghost use Rattle.step_data.specs.Actions.{action_code, height};
ghost use Rattle.step_data.specs.Meetings.{defined_meets, defined_tested, meets_value};

use crate::meeting::meets;
use crate::parts::{part, within};
use eval_data::{Flow, Here};
use expr_tree::{Defined, Pattern};
use fit_steps::{Tested, fitted_maybe};
use flow_values::{Came, value_in};
use spec_table::ClassTable;
use std::alloc::Global;
use step_data::{Action, Defining, Follow, Meeting, Waiting};
use type_tree::TypeExpr;
use vdm_kinds::{Name, OutOfMemory, Place, RunFault};
use vdm_tree::{Expr, Stmt};
use vdm_values::{Slot, Value};

/// The first of the definitions, or where none is left the statement for which all are bound; so many locals stand before them.
pub fn definitions<'t>(
    alloc: Global,
    here: Here<'t>,
    definitions: &'t [Defined],
    body: &'t Box<Stmt>,
    count: usize,
    place: Place,
) -> Result<Action<'t>, OutOfMemory>
    ensures same { IfOk result (λ a. (spec : SpecTree) (locals : Locals) → action_code spec locals a ≡ definitions_plan spec (here_of here.entry) place (defined_trees (map defined_view definitions.entry.now)) (stmt_within (here_of here.entry) count (boxed_stmt body.entry.now)) locals) }
    ensures falls { IfOk result (λ a. height a ≤ 1) }
{
    match definitions.split_first() {
        None => Ok(within(here, body, count)),
        Some((first, more)) => first_defined(alloc, here, first, more, body, count, place),
    }
}

fn first_defined<'t>(
    alloc: Global,
    here: Here<'t>,
    first: &'t Defined,
    more: &'t [Defined],
    body: &'t Box<Stmt>,
    count: usize,
    place: Place,
) -> Result<Action<'t>, OutOfMemory>
    ensures same { IfOk result (λ a. (spec : SpecTree) (locals : Locals) → action_code spec locals a ≡ definitions_plan spec (here_of here.entry) place (one_defined (pattern_view first.entry.now.pattern.value) (option_map type_view first.entry.now.declared) (boxed_view first.entry.now.value) (defined_trees (map defined_view more.entry.now))) (stmt_within (here_of here.entry) count (boxed_stmt body.entry.now)) locals) }
    ensures falls { IfOk result (λ a. height a ≤ 1) }
{
    let defining = Defining {
        here,
        place,
        pattern: &first.pattern,
        declared: type_of(&first.declared),
        more,
        body,
        count,
    };
    value_of(alloc, &first.value, defining)
}

fn type_of(declared: &Option<TypeExpr>) -> Option<&TypeExpr>
    ensures { maybe_type result ≡ option_map type_view declared.now }
{
    declared.as_ref()
}

/// A definition with none behind it.
pub fn only_definition<'t>(
    alloc: Global,
    here: Here<'t>,
    pattern: &'t Box<Pattern>,
    value: &'t Box<Expr>,
    body: &'t Box<Stmt>,
    count: usize,
    place: Place,
) -> Result<Action<'t>, OutOfMemory>
    ensures same { IfOk result (λ a. (spec : SpecTree) (locals : Locals) → action_code spec locals a ≡ definitions_plan spec (here_of here.entry) place (one_defined (pattern_view pattern.entry.now.value) None (boxed_view value.entry.now) no_defined) (stmt_within (here_of here.entry) count (boxed_stmt body.entry.now)) locals) }
    ensures falls { IfOk result (λ a. height a ≤ 1) }
{
    let more: &[Defined] = &[];
    let defining = Defining {
        here,
        place,
        pattern,
        declared: None,
        more,
        body,
        count,
    };
    value_of(alloc, value, defining)
}

/// The value that a definition gives, and then its pattern meets it, where it fits the type.
fn value_of<'t>(
    alloc: Global,
    value: &'t Box<Expr>,
    defining: Defining<'t>,
) -> Result<Action<'t>, OutOfMemory>
    ensures same { IfOk result (λ a. (spec : SpecTree) (locals : Locals) → action_code spec locals a ≡ evaluated (here_of defining.entry.here) locals (boxed_view value.entry.now) defining.entry.place (defined_tested spec defining.entry)) }
    ensures falls { IfOk result (λ a. height a ≤ 1) }
{
    let here = defining.here;
    let defining = Box::new(alloc, defining)?;
    Ok(part(here, value, Waiting::Defined(defining)))
}

/// What a definition gives is tested against its type, where one is given, and then meets its pattern.
pub fn defined<'t>(
    alloc: Global,
    table: &'t ClassTable,
    locals: &mut Vec<(Name, Slot)>,
    defining: Box<Defining<'t>>,
    flow: Flow,
) -> Result<Action<'t>, OutOfMemory>
    ensures same { IfOk result (λ a. action_code (table_spec table.now) locals.new.items a ≡ with_value defining.entry.value.place (defined_tested (table_spec table.now) defining.entry.value) (flow_of flow locals.old.items)) }
    ensures falls { IfOk result (λ a. height a ≤ 1) }
{
    match value_in(flow) {
        Came::Is(value) => test(alloc, table, locals, defining, value),
        Came::Nothing => Ok(Action::Fail(RunFault::Undefined, defining.place)),
        Came::Exits(value, from) => Ok(Action::Finish(Flow::Exited(value, from))),
    }
}

fn test<'t>(
    alloc: Global,
    table: &'t ClassTable,
    locals: &mut Vec<(Name, Slot)>,
    defining: Box<Defining<'t>>,
    value: Value,
) -> Result<Action<'t>, OutOfMemory>
    ensures same { IfOk result (λ a. action_code (table_spec table.now) locals.new.items a ≡ defined_tested (table_spec table.now) defining.entry.value value locals.old.items) }
    ensures falls { IfOk result (λ a. height a ≤ 1) }
{
    let tested = value_tested(alloc, table, locals, &defining, value)?;
    behind_test(alloc, table, locals, defining, tested)
}

fn value_tested<'t>(
    alloc: Global,
    table: &'t ClassTable,
    locals: &mut Vec<(Name, Slot)>,
    defining: &Defining<'t>,
    value: Value,
) -> Result<Tested<'t>, OutOfMemory>
    ensures { IfOk result (λ t. (asker : Asker) → tested_code (under (table_spec table.entry.now) asker) defining.now.place locals.new.items t ≡ fitted_maybe (table_spec table.entry.now) (here_of defining.now.here).nest (here_of defining.now.here).scope (maybe_type defining.now.declared) defining.now.place value locals.old.items) }
{
    fitted_maybe(
        alloc,
        table,
        locals,
        defining.here.nest,
        defining.here.scope,
        defining.declared,
        defining.place,
        value,
    )
}

fn behind_test<'t>(
    alloc: Global,
    table: &ClassTable,
    locals: &mut Vec<(Name, Slot)>,
    defining: Box<Defining<'t>>,
    tested: Tested<'t>,
) -> Result<Action<'t>, OutOfMemory>
    ensures same { IfOk result (λ a. action_code (table_spec table.now) locals.new.items a ≡ bind (tested_code (of_thread (table_spec table.now)) defining.entry.value.place locals.old.items tested.entry) (with_value defining.entry.value.place (defined_meets (table_spec table.now) defining.entry.value))) }
    ensures falls { IfOk result (λ a. height a ≤ 1) }
{
    match tested {
        Tested::Gives(value) => fits(alloc, table, locals, defining, value),
        Tested::Fails(fault) => Ok(Action::Fail(fault, defining.place)),
        Tested::Asks(inside, tree, inner) => {
            Action::fit(alloc, inside, tree, inner, Waiting::DefinedFits(defining))
        }
    }
}

/// What a definition gives fits its type, and meets its pattern.
pub fn defined_fits<'t>(
    alloc: Global,
    table: &ClassTable,
    locals: &mut Vec<(Name, Slot)>,
    defining: Box<Defining<'t>>,
    flow: Flow,
) -> Result<Action<'t>, OutOfMemory>
    ensures same { IfOk result (λ a. action_code (table_spec table.now) locals.new.items a ≡ with_value defining.entry.value.place (defined_meets (table_spec table.now) defining.entry.value) (flow_of flow locals.old.items)) }
    ensures falls { IfOk result (λ a. height a ≤ 1) }
{
    match value_in(flow) {
        Came::Is(value) => fits(alloc, table, locals, defining, value),
        Came::Nothing => Ok(Action::Fail(RunFault::Undefined, defining.place)),
        Came::Exits(value, from) => Ok(Action::Finish(Flow::Exited(value, from))),
    }
}

fn fits<'t>(
    alloc: Global,
    table: &ClassTable,
    locals: &mut Vec<(Name, Slot)>,
    defining: Box<Defining<'t>>,
    value: Value,
) -> Result<Action<'t>, OutOfMemory>
    ensures same { IfOk result (λ a. action_code (table_spec table.now) locals.new.items a ≡ defined_meets (table_spec table.now) defining.entry.value value locals.old.items) }
    ensures falls { IfOk result (λ a. height a ≤ 1) }
{
    let meeting = meeting_of(&defining, value);
    meets(alloc, table, locals, meeting)
}

/// The pattern of a definition, and the value that it meets.
fn meeting_of<'t>(defining: &Defining<'t>, value: Value) -> Meeting<'t>
    ensures { (spec : SpecTree) (locals : Locals) → meets_value spec result locals ≡ defined_meets spec defining.now value locals }
{
    let follow = Follow::Definition(defining.more, defining.body, defining.count);
    Meeting {
        here: defining.here,
        place: defining.place,
        pattern: defining.pattern,
        value,
        follow,
    }
}
