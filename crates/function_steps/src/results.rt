// The result of a function, and what `post` says of it.

ghost use Rattle.std.specs.Prelude.{◌≡◌, IfOk, Some};
ghost use Rattle.node_meaning.specs.Envs.{result_name};
ghost use Rattle.node_meaning.specs.Fitting.{fitted};
ghost use Rattle.node_meaning.specs.Functions.{post_decided, post_of, result_given};
ghost use Rattle.node_meaning.specs.Needs.{Asker, Setting};
ghost use Rattle.node_meaning.specs.Tasks.{value as value_of, with_value};
ghost use Rattle.plans.specs.Plans.{bind};
ghost use Rattle.eval_data.specs.Parts.{applying_of, nest_of};
ghost use Rattle.eval_data.specs.Steps.{code_of};
ghost use Rattle.spec_table.specs.Tables.{table_spec};
ghost use Rattle.fit_steps.specs.Tests.{tested_code, under};

use crate::parts::{body_here, part};
use bind_steps::push_shared;
use eval_data::{Applying, Frame, Step, TruthUse, Use};
use fit_steps::{Tested, fitted};
use spec_table::ClassTable;
use std::alloc::Global;
use vdm_kinds::{Name, OutOfMemory, Place, RunFault};
use vdm_values::{Slot, Value};

/// The name under which `RESULT` stands among the locals. Names are numbered from the first on, so no name of a text has this number.
pub fn result_name() -> Name
    ensures { result ≡ result_name }
{
    Name(u32::MAX)
}

/// The result of a function is tested against its type, and then `post` follows.
pub fn result_given<'t>(
    alloc: Global,
    table: &'t ClassTable,
    locals: &mut Vec<(Name, Slot)>,
    applying: Box<Applying<'t>>,
    value: Value,
) -> Result<Step<'t>, OutOfMemory>
    ensures { IfOk result (λ s. (asker : Asker) → code_of (under (table_spec table.entry.now) asker) locals.new.items s ≡ result_given (table_spec table.entry.now) (applying_of applying.entry.value) value locals.old.items) }
{
    let place = applying.place;
    let tested = result_tested(alloc, table, locals, &applying, value)?;
    behind_test(alloc, locals, applying, place, tested)
}

// The test of the result.
fn result_tested<'t>(
    alloc: Global,
    table: &'t ClassTable,
    locals: &mut Vec<(Name, Slot)>,
    applying: &Applying<'t>,
    value: Value,
) -> Result<Tested<'t>, OutOfMemory>
    ensures { IfOk result (λ t. (asker : Asker) → tested_code (under (table_spec table.entry.now) asker) applying.entry.now.place locals.new.items t ≡ fitted (table_spec table.entry.now) (nest_of applying.entry.now.nest) (Some applying.entry.now.class) (applying_of applying.entry.now).function.result_type applying.entry.now.place value locals.old.items) }
{
    let function = applying.function;
    let scope = Some(applying.class);
    fitted(
        alloc,
        table,
        locals,
        applying.nest,
        scope,
        &function.result_type,
        applying.place,
        value,
    )
}

// What is done behind the test of the result.
fn behind_test<'t>(
    alloc: Global,
    locals: &mut Vec<(Name, Slot)>,
    applying: Box<Applying<'t>>,
    place: Place,
    tested: Tested<'t>,
) -> Result<Step<'t>, OutOfMemory>
    ensures { IfOk result (λ s. (setting : Setting) → code_of setting locals.new.items s ≡ bind (tested_code setting place locals.old.items tested.entry) (with_value place (post_of (applying_of applying.entry.value) (applying_of applying.entry.value).function.post))) }
{
    match tested {
        Tested::Gives(value) => post_of(alloc, locals, applying, value),
        Tested::Fails(fault) => Ok(Step::Fail(fault, place)),
        Tested::Asks(here, tree, inner) => {
            Step::result_test(alloc, here, tree, inner, applying, place)
        }
    }
}

/// Whether `post` holds of a result that fits, where there is one.
pub fn post_of<'t>(
    alloc: Global,
    locals: &mut Vec<(Name, Slot)>,
    applying: Box<Applying<'t>>,
    value: Value,
) -> Result<Step<'t>, OutOfMemory>
    ensures { IfOk result (λ s. (setting : Setting) → code_of setting locals.new.items s ≡ post_of (applying_of applying.entry.value) (applying_of applying.entry.value).function.post value locals.old.items) }
{
    let function = applying.function;
    match &function.post {
        None => Ok(restored(locals, applying, value)),
        Some(post) => {
            let value = value.share(alloc)?;
            push_shared(alloc, locals, result_name(), value.copy(alloc)?)?;
            let here = body_here(&applying);
            let place = applying.place;
            let used = Use::Truth(TruthUse::Post(applying, value));
            Ok(part(here, post, Frame::With(used, place)))
        }
    }
}

/// `post` holds of the result of a function, or does not.
pub fn post_decided<'t>(
    locals: &mut Vec<(Name, Slot)>,
    applying: Box<Applying<'t>>,
    value: Value,
    holds: bool,
) -> Step<'t>
    ensures { (setting : Setting) → code_of setting locals.new.items result ≡ post_decided (applying_of applying.entry.value) value holds locals.old.items }
{
    if holds {
        restored(locals, applying, value)
    } else {
        Step::Fail(RunFault::Post, applying.place)
    }
}

// The result, with the locals of the node again.
fn restored<'t>(
    locals: &mut Vec<(Name, Slot)>,
    applying: Box<Applying<'t>>,
    value: Value,
) -> Step<'t>
    ensures { (setting : Setting) → code_of setting locals.new.items result ≡ value_of value applying.entry.value.outer.items }
{
    *locals = Box::into_inner(applying).into_outer();
    Step::value(value)
}
