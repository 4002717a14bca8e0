// What a search ends with.

ghost use Rattle.std.specs.Prelude.{◌≡◌, IfOk};
ghost use Rattle.node_meaning.specs.Choosing.{exhausted, the_only};
ghost use Rattle.node_meaning.specs.Envs.{Locals};
ghost use Rattle.node_meaning.specs.Needs.{Setting};
ghost use Rattle.node_meaning.specs.Tasks.{value as value_of};
ghost use Rattle.abstract_syntax.specs.Values.{boolean};
ghost use Rattle.eval_data.specs.Parts.{chooser_of};
ghost use Rattle.eval_data.specs.Steps.{code_of};
ghost use Rattle.search_steps.specs.Outcomes.{alone};

use eval_data::{Chooser, Search, Step};
use std::alloc::Global;
use std::mem::replace;
use value_steps::make;
use vdm_kinds::{OutOfMemory, Place, RunFault};
use vdm_values::{Node, Value};

/// No choice is left.
pub(crate) fn exhausted<'t>(alloc: Global, search: Box<Search<'t>>) -> Result<Step<'t>, OutOfMemory>
    ensures { IfOk result (λ s. (setting : Setting) (locals : Locals) → code_of setting locals s ≡ exhausted (chooser_of search.entry.value.chooser) search.entry.value.place search.entry.value.done.items locals) }
{
    let mut search = search;
    let done = replace(&mut search.done, Vec::new(alloc));
    ended(alloc, search.chooser, search.place, done)
}

// ... and these values were collected.
fn ended<'t>(
    alloc: Global,
    chooser: Chooser<'t>,
    place: Place,
    done: Vec<Value>,
) -> Result<Step<'t>, OutOfMemory>
    ensures { IfOk result (λ s. (setting : Setting) (locals : Locals) → code_of setting locals s ≡ exhausted (chooser_of chooser.entry) place done.items locals) }
{
    match chooser {
        Chooser::Collects(what, _, _) => make(alloc, what, place, done),
        Chooser::ForEach(_) => Ok(truth(true)),
        Chooser::ForSome(_) => Ok(truth(false)),
        Chooser::ForOne(_) => Ok(truth(done.len() == 1)),
        Chooser::TheOne(_) => Ok(the_only(place, done)),
        Chooser::TakesFirst(_, _) => Ok(Step::Fail(RunFault::NoMatch, place)),
        Chooser::Finds(_) => Ok(Step::Fail(RunFault::NoMatch, place)),
    }
}

/// A truth value.
pub(crate) fn truth<'t>(b: bool) -> Step<'t>
    ensures { (setting : Setting) (locals : Locals) → code_of setting locals result ≡ value_of (boolean b) locals }
{
    Step::value(Value::new(Node::Bool(b)))
}

// The one value that was collected.
fn the_only<'t>(place: Place, done: Vec<Value>) -> Step<'t>
    ensures { (setting : Setting) (locals : Locals) → code_of setting locals result ≡ the_only place done.items locals }
{
    let mut done = done;
    match done.pop() {
        Some(value) => alone(place, value, done.len()),
        None => Step::Fail(RunFault::NotUnique, place),
    }
}

// The value, if no other was collected before it.
fn alone<'t>(place: Place, value: Value, before: usize) -> Step<'t>
    ensures { (setting : Setting) (locals : Locals) → code_of setting locals result ≡ alone place value before locals }
{
    if before == 0 {
        Step::value(value)
    } else {
        Step::Fail(RunFault::NotUnique, place)
    }
}
