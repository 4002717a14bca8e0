// A choice that fulfils the condition, or does not; and the choices behind it.

ghost use Rattle.std.specs.Prelude.{◌≡◌, ◌++◌, ◌∷◌, [], IfOk, take, true};
ghost use Rattle.abstract_syntax.specs.Classes.{SpecTree};
ghost use Rattle.abstract_syntax.specs.Values.{boolean};
ghost use Rattle.node_meaning.specs.Choosing.{by_truth, fulfilled, unfulfilled, next_choice};
ghost use Rattle.node_meaning.specs.Needs.{Setting};
ghost use Rattle.node_meaning.specs.Tasks.{value as value_of};
ghost use Rattle.spec_table.specs.Tables.{table_spec};
ghost use Rattle.eval_data.specs.Parts.{chooser_of, first_choice, search_of};
ghost use Rattle.eval_data.specs.Steps.{choose_behind, code_of};

use crate::chosen::choose;
use crate::ends::truth;
use crate::kept::with_choice;
use crate::matched::{first_element, taken};
use eval_data::{Chooser, Flow, Search, Step};
use spec_table::ClassTable;
use std::alloc::Global;
use std::mem::replace;
use vdm_kinds::{Name, OutOfMemory};
use vdm_values::{Node, Slot, Value};

/// The first of the choices that are left fulfils the condition, or does not.
pub fn choice_decided<'t>(
    alloc: Global,
    table: &ClassTable,
    locals: &mut Vec<(Name, Slot)>,
    search: Box<Search<'t>>,
    b: bool,
) -> Result<Step<'t>, OutOfMemory>
    ensures { IfOk result (λ s. (setting : Setting) → setting.spec ≡ table_spec table.now → code_of setting locals.new.items s ≡ by_truth (search_of search.entry.value) (first_choice search.entry.value) search.entry.value.done.items (choose_behind setting.spec search.entry.value 1) b locals.old.items) }
{
    if b {
        fulfilled(alloc, table, locals, search)
    } else {
        unfulfilled(alloc, table, locals, search)
    }
}

// It does.
fn fulfilled<'t>(
    alloc: Global,
    table: &ClassTable,
    locals: &mut Vec<(Name, Slot)>,
    search: Box<Search<'t>>,
) -> Result<Step<'t>, OutOfMemory>
    ensures { IfOk result (λ s. (setting : Setting) → setting.spec ≡ table_spec table.now → code_of setting locals.new.items s ≡ fulfilled (search_of search.entry.value) (chooser_of search.entry.value.chooser) (first_choice search.entry.value) search.entry.value.done.items (choose_behind setting.spec search.entry.value 1) locals.old.items) }
{
    match search.chooser {
        Chooser::Collects(_, elements, _) => Ok(first_element(alloc, search, elements)?),
        Chooser::ForEach(_) => others(alloc, table, locals, search),
        Chooser::ForSome(_) => Ok(settled(locals, search.count, true)),
        Chooser::ForOne(_) => counted(alloc, table, locals, search),
        Chooser::TheOne(_) => keeps(alloc, table, locals, search),
        Chooser::TakesFirst(_, body) => Ok(taken(search, body)),
        Chooser::Finds(_) => Ok(Step::Finish(Flow::Next)),
    }
}

// It does not.
fn unfulfilled<'t>(
    alloc: Global,
    table: &ClassTable,
    locals: &mut Vec<(Name, Slot)>,
    search: Box<Search<'t>>,
) -> Result<Step<'t>, OutOfMemory>
    ensures { IfOk result (λ s. (setting : Setting) → setting.spec ≡ table_spec table.now → code_of setting locals.new.items s ≡ unfulfilled (search_of search.entry.value) (chooser_of search.entry.value.chooser) search.entry.value.done.items (choose_behind setting.spec search.entry.value 1) locals.old.items) }
{
    match search.chooser {
        Chooser::ForEach(_) => Ok(settled(locals, search.count, false)),
        _ => others(alloc, table, locals, search),
    }
}

// The search is over, with this value.
fn settled<'t>(locals: &mut Vec<(Name, Slot)>, count: usize, b: bool) -> Step<'t>
    ensures { (setting : Setting) → code_of setting locals.new.items result ≡ value_of (boolean b) (take count locals.old.items) }
{
    locals.truncate(count);
    truth(b)
}

// One more was found.
fn counted<'t>(
    alloc: Global,
    table: &ClassTable,
    locals: &mut Vec<(Name, Slot)>,
    search: Box<Search<'t>>,
) -> Result<Step<'t>, OutOfMemory>
    ensures { IfOk result (λ s. (setting : Setting) → setting.spec ≡ table_spec table.now → code_of setting locals.new.items s ≡ next_choice (search_of search.entry.value) (choose_behind setting.spec search.entry.value 1) (search.entry.value.done.items ++ boolean true ∷ []) locals.old.items) }
{
    let mut search = search;
    search.done.push(Value::new(Node::Bool(true)))?;
    others(alloc, table, locals, search)
}

// The values of the choice are collected.
fn keeps<'t>(
    alloc: Global,
    table: &ClassTable,
    locals: &mut Vec<(Name, Slot)>,
    search: Box<Search<'t>>,
) -> Result<Step<'t>, OutOfMemory>
    ensures { IfOk result (λ s. (setting : Setting) → setting.spec ≡ table_spec table.now → code_of setting locals.new.items s ≡ next_choice (search_of search.entry.value) (choose_behind setting.spec search.entry.value 1) (search.entry.value.done.items ++ first_choice search.entry.value) locals.old.items) }
{
    let mut search = search;
    let done = replace(&mut search.done, Vec::new(alloc));
    search.done = with_choice(alloc, done, &search.choices)?;
    others(alloc, table, locals, search)
}

// The choices behind it.
fn others<'t>(
    alloc: Global,
    table: &ClassTable,
    locals: &mut Vec<(Name, Slot)>,
    search: Box<Search<'t>>,
) -> Result<Step<'t>, OutOfMemory>
    ensures { IfOk result (λ s. (setting : Setting) → setting.spec ≡ table_spec table.now → code_of setting locals.new.items s ≡ next_choice (search_of search.entry.value) (choose_behind setting.spec search.entry.value 1) search.entry.value.done.items locals.old.items) }
{
    let rest = advanced(search);
    locals.truncate(rest.count);
    choose(alloc, table, locals, rest)
}

// The search behind the first of the choices.
fn advanced<'t>(search: Box<Search<'t>>) -> Box<Search<'t>>
    ensures behind { (spec : SpecTree) → choose_behind spec result.value 0 ≡ choose_behind spec search.entry.value 1 }
    ensures done { result.value.done.items ≡ search.entry.value.done.items }
    ensures count { result.value.count ≡ search.entry.value.count }
{
    let mut search = search;
    search.choices.advance();
    search
}

/// The choices that are left, with the values that were collected.
pub fn next_choice<'t>(
    alloc: Global,
    table: &ClassTable,
    locals: &mut Vec<(Name, Slot)>,
    search: Box<Search<'t>>,
    values: Vec<Value>,
) -> Result<Step<'t>, OutOfMemory>
    ensures { IfOk result (λ s. (setting : Setting) → setting.spec ≡ table_spec table.now → code_of setting locals.new.items s ≡ next_choice (search_of search.entry.value) (choose_behind setting.spec search.entry.value 0) values.items locals.old.items) }
{
    let kept = with_values(search, values);
    locals.truncate(kept.count);
    choose(alloc, table, locals, kept)
}

// The search with these values collected.
fn with_values<'t>(search: Box<Search<'t>>, values: Vec<Value>) -> Box<Search<'t>>
    ensures behind { (spec : SpecTree) → choose_behind spec result.value 0 ≡ choose_behind spec search.entry.value 0 }
    ensures done { result.value.done.items ≡ values.items }
    ensures count { result.value.count ≡ search.entry.value.count }
{
    let mut search = search;
    search.done = values;
    search
}
