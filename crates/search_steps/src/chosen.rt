// A search goes on among the choices that are left.

ghost use Rattle.std.specs.Prelude.{◌≡◌, IfOk};
ghost use Rattle.node_meaning.specs.Choosing.{tried, condition_of};
ghost use Rattle.node_meaning.specs.Envs.{Locals};
ghost use Rattle.node_meaning.specs.Needs.{Setting};
ghost use Rattle.spec_table.specs.Tables.{table_spec};
ghost use Rattle.eval_data.specs.Parts.{chooser_of, search_of, first_choice};
ghost use Rattle.eval_data.specs.Steps.{choose_behind, code_of};
ghost use Rattle.search_steps.specs.Outcomes.{found_code};

use crate::ends::exhausted;
use crate::found::Found;
use crate::matched::{decides, first_element, taken};
use crate::passing::first_found;
use eval_data::{Chooser, Flow, Search, Step};
use spec_table::ClassTable;
use std::alloc::Global;
use vdm_kinds::{Name, OutOfMemory};
use vdm_values::Slot;

/// The next choice that the patterns match; with none left, what the search ends with.
pub fn choose<'t>(
    alloc: Global,
    table: &ClassTable,
    locals: &mut Vec<(Name, Slot)>,
    search: Box<Search<'t>>,
) -> Result<Step<'t>, OutOfMemory>
    ensures { IfOk result (λ s. (setting : Setting) → setting.spec ≡ table_spec table.now → code_of setting locals.new.items s ≡ choose_behind setting.spec search.entry.value 0 search.entry.value.done.items locals.old.items) }
{
    let mut search = search;
    let found = first_found(alloc, table, locals, search.as_mut())?;
    found_step(alloc, search, found)
}

// What is done where a search has come to this.
fn found_step<'t>(
    alloc: Global,
    search: Box<Search<'t>>,
    found: Found,
) -> Result<Step<'t>, OutOfMemory>
    ensures { IfOk result (λ s. (setting : Setting) (locals : Locals) → code_of setting locals s ≡ found_code setting.spec search.entry.value found locals) }
{
    match found {
        Found::Exhausted => exhausted(alloc, search),
        Found::Matched => tried(alloc, search),
        Found::Fault(fault) => Ok(Step::Fail(fault, search.place)),
    }
}

// The condition on the first choice, where there is one.
fn tried<'t>(alloc: Global, search: Box<Search<'t>>) -> Result<Step<'t>, OutOfMemory>
    ensures { IfOk result (λ s. (setting : Setting) (locals : Locals) → code_of setting locals s ≡ tried (search_of search.entry.value) (condition_of (chooser_of search.entry.value.chooser)) (first_choice search.entry.value) search.entry.value.done.items (choose_behind setting.spec search.entry.value 1) locals) }
{
    match search.chooser {
        Chooser::Collects(_, elements, condition) => match condition {
            Some(condition) => Ok(decides(search, condition)),
            None => first_element(alloc, search, elements),
        },
        Chooser::ForEach(condition) => Ok(decides(search, condition)),
        Chooser::ForSome(condition) => Ok(decides(search, condition)),
        Chooser::ForOne(condition) => Ok(decides(search, condition)),
        Chooser::TheOne(condition) => Ok(decides(search, condition)),
        Chooser::TakesFirst(condition, body) => match condition {
            Some(condition) => Ok(decides(search, condition)),
            None => Ok(taken(search, body)),
        },
        Chooser::Finds(condition) => match condition {
            Some(condition) => Ok(decides(search, condition)),
            None => Ok(Step::Finish(Flow::Next)),
        },
    }
}
