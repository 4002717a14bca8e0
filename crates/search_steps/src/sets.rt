// The sets from which elements are chosen.

ghost use Rattle.std.specs.Prelude.{◌≡◌, ◌+◌, ◌++◌, IfOk, Some, slice_get, replicate};
ghost use Rattle.abstract_syntax.specs.Expressions.{expr_place};
ghost use Rattle.expr_tree.specs.View.{boxed_view};
ghost use Rattle.plans.specs.Plans.{part};
ghost use Rattle.node_meaning.specs.Choosing.{behind_sets};
ghost use Rattle.node_meaning.specs.Envs.{Locals, at};
ghost use Rattle.node_meaning.specs.Needs.{Setting};
ghost use Rattle.node_meaning.specs.Tasks.{expr_in};
ghost use Rattle.spec_table.specs.Tables.{table_spec};
ghost use Rattle.eval_data.specs.declared.frame.Use.TheVariants.{Elements};
ghost use Rattle.eval_data.specs.Parts.{here_of, chooser_of, patterns_at, sources_from};
ghost use Rattle.eval_data.specs.Steps.{code_of, frame_then, use_of, source_at, sets_behind};
ghost use Rattle.search_steps.specs.Gathering.{sets_from};

use crate::copies::with_copies;
use crate::parts::part_of;
use crate::searching::behind_sets;
use eval_data::{Frame, Sets, Source, Step, Use};
use spec_table::ClassTable;
use std::alloc::Global;
use std::mem::replace;
use vdm_kinds::{Name, OutOfMemory, Part, Place, RunFault};
use vdm_values::{Node, Slot, Value, ValueList};

/// Where a fault of a set stands that comes from nowhere, which is in no text.
const NOWHERE: Place = Place {
    part: Part::Spec,
    line: 1,
    column: 1,
};

/// The set that comes next as a part; behind the last the search.
pub(crate) fn next_set<'t>(
    alloc: Global,
    table: &ClassTable,
    locals: &mut Vec<(Name, Slot)>,
    sets: Box<Sets<'t>>,
) -> Result<Step<'t>, OutOfMemory>
    ensures { IfOk result (λ s. (setting : Setting) → setting.spec ≡ table_spec table.now → code_of setting locals.new.items s ≡ sets_from setting.spec sets.entry.value locals.old.items) }
{
    match next_source(&sets) {
        Some(source) => Ok(set_part(sets, source)),
        None => all_sets(alloc, table, locals, sets),
    }
}

// Where the set that comes next comes from.
fn next_source<'t>(sets: &Sets<'t>) -> Option<Source<'t>>
    ensures { result ≡ slice_get sets.now.sources.items sets.now.at }
{
    sets.sources.as_slice().get(sets.at).copied()
}

/// The set from this source as a part.
pub(crate) fn set_part<'t>(sets: Box<Sets<'t>>, source: Source<'t>) -> Step<'t>
    requires { slice_get sets.value.sources.items sets.value.at ≡ Some source }
    ensures { (setting : Setting) (locals : Locals) → code_of setting locals result ≡ sets_from setting.spec sets.entry.value locals }
{
    part_of(sets.here, source.set, set_frame(sets, source))
}

/// What is done with the value of the set from this source.
pub(crate) fn set_frame<'t>(sets: Box<Sets<'t>>, source: Source<'t>) -> Frame<'t>
    requires { slice_get sets.value.sources.items sets.value.at ≡ Some source }
    ensures { (setting : Setting) (locals : Locals) → part (expr_in (at (here_of sets.entry.value.here) locals) (boxed_view source.entry.set.now)) (frame_then setting result) ≡ sets_from setting.spec sets.entry.value locals }
{
    let place = sets.place;
    Frame::With(Use::Elements(sets), place)
}

// All sets came.
fn all_sets<'t>(
    alloc: Global,
    table: &ClassTable,
    locals: &mut Vec<(Name, Slot)>,
    sets: Box<Sets<'t>>,
) -> Result<Step<'t>, OutOfMemory>
    ensures { IfOk result (λ s. (setting : Setting) → setting.spec ≡ table_spec table.now → code_of setting locals.new.items s ≡ behind_sets setting.spec (here_of sets.entry.value.here) sets.entry.value.place (patterns_at sets.entry.value.patterns.items) (chooser_of sets.entry.value.chooser) sets.entry.value.lists.items locals.old.items) }
{
    let mut sets = sets;
    let lists = replace(&mut sets.lists, Vec::new(alloc));
    let patterns = replace(&mut sets.patterns, Vec::new(alloc));
    behind_sets(
        alloc,
        table,
        locals,
        sets.here,
        sets.place,
        lists,
        patterns,
        sets.chooser,
    )
}

/// A value that has to be the set of a bind, and then the sets behind it.
pub fn elements<'t>(
    alloc: Global,
    table: &ClassTable,
    locals: &mut Vec<(Name, Slot)>,
    sets: Box<Sets<'t>>,
    place: Place,
    value: Value,
) -> Result<Step<'t>, OutOfMemory>
    ensures { IfOk result (λ s. (setting : Setting) → setting.spec ≡ table_spec table.now → code_of setting locals.new.items s ≡ use_of setting (Elements sets.entry) place value locals.old.items) }
{
    let node = value.into_node(alloc)?;
    match node {
        Node::Set(values) => with_set(alloc, table, locals, sets, ValueList::from_vec(values)),
        _ => Ok(Step::Fail(RunFault::NotSet, set_place(&sets))),
    }
}

// The elements of a set, and then the sets behind it.
fn with_set<'t>(
    alloc: Global,
    table: &ClassTable,
    locals: &mut Vec<(Name, Slot)>,
    sets: Box<Sets<'t>>,
    values: ValueList,
) -> Result<Step<'t>, OutOfMemory>
    ensures { IfOk result (λ s. (setting : Setting) → setting.spec ≡ table_spec table.now → code_of setting locals.new.items s ≡ sets_behind setting.spec sets.entry.value (sets.entry.value.lists.items ++ replicate (source_at sets.entry.value).1 values) locals.old.items) }
{
    let mut sets = sets;
    let count = set_count(&sets);
    let lists = replace(&mut sets.lists, Vec::new(alloc));
    sets.lists = with_copies(alloc, lists, count, values)?;
    sets.at = number_behind(&sets);
    next_set(alloc, table, locals, sets)
}

// Where the set stands that is being evaluated.
fn set_place(sets: &Sets<'_>) -> Place
    ensures { result ≡ expr_place (source_at sets.now).0 }
{
    match sets.sources.get(sets.at) {
        Some(source) => source.set.place(),
        None => NOWHERE,
    }
}

// How many patterns it is for.
fn set_count(sets: &Sets<'_>) -> usize
    ensures { result ≡ (source_at sets.now).1 }
{
    match sets.sources.get(sets.at) {
        Some(source) => source.count,
        None => 0,
    }
}

// The number of the source behind it.
fn number_behind(sets: &Sets<'_>) -> usize
    ensures { sources_from sets.now.sources.items result ≡ sources_from sets.now.sources.items (sets.now.at + 1) }
{
    if sets.at < sets.sources.len() {
        sets.at + 1
    } else {
        sets.at
    }
}
