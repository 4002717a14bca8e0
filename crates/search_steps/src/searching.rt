// A search begins behind its sets.

ghost use Rattle.std.specs.Prelude.{◌≡◌, IfOk};
ghost use Rattle.node_meaning.specs.Choosing.{behind_sets, search_with};
ghost use Rattle.node_meaning.specs.Needs.{Setting};
ghost use Rattle.spec_table.specs.Tables.{table_spec};
ghost use Rattle.eval_data.specs.Parts.{here_of, chooser_of, patterns_at};
ghost use Rattle.eval_data.specs.Steps.{code_of};

use crate::brackets::givens_of;
use crate::chosen::choose;
use crate::parts::collecting_part;
use bind_choices::Choices;
use eval_data::{Chooser, Here, Parts, Search, Step, Then};
use expr_tree::Pattern;
use spec_table::ClassTable;
use std::alloc::Global;
use vdm_kinds::{Name, OutOfMemory, Place};
use vdm_values::{Slot, Value, ValueList};

/// Behind the sets: the expressions in brackets in the patterns, and then the search.
pub(crate) fn behind_sets<'t>(
    alloc: Global,
    table: &ClassTable,
    locals: &mut Vec<(Name, Slot)>,
    here: Here<'t>,
    place: Place,
    lists: Vec<ValueList>,
    patterns: Vec<&'t Pattern>,
    chooser: Chooser<'t>,
) -> Result<Step<'t>, OutOfMemory>
    ensures { IfOk result (λ s. (setting : Setting) → setting.spec ≡ table_spec table.now → code_of setting locals.new.items s ≡ behind_sets setting.spec (here_of here.entry) place (patterns_at patterns.entry.items) (chooser_of chooser.entry) lists.items locals.old.items) }
{
    let found = givens_of(alloc, patterns.as_slice())?;
    let done = Vec::new(alloc);
    match found.first() {
        Some(first) => {
            let first = *first;
            let rest = Parts::Brackets(found, 1);
            let then = Then::Searches(lists, patterns, chooser);
            let step = collecting_part(alloc, here, place, first, rest, done, then)?;
            Ok(step)
        }
        None => searches(
            alloc, table, locals, here, place, lists, patterns, chooser, done,
        ),
    }
}

/// A search among the choices of elements of the lists.
pub fn searches<'t>(
    alloc: Global,
    table: &ClassTable,
    locals: &mut Vec<(Name, Slot)>,
    here: Here<'t>,
    place: Place,
    lists: Vec<ValueList>,
    patterns: Vec<&'t Pattern>,
    chooser: Chooser<'t>,
    given: Vec<Value>,
) -> Result<Step<'t>, OutOfMemory>
    ensures { IfOk result (λ s. (setting : Setting) → setting.spec ≡ table_spec table.now → code_of setting locals.new.items s ≡ search_with setting.spec (here_of here.entry) place (patterns_at patterns.entry.items) (chooser_of chooser.entry) lists.items given.items locals.old.items) }
{
    let choices = Choices::of(alloc, lists)?;
    let search = Search {
        here,
        place,
        count: locals.len(),
        patterns,
        given: ValueList::from_vec(given),
        chooser,
        choices,
        done: Vec::new(alloc),
    };
    choose(alloc, table, locals, Box::new(alloc, search)?)
}
