// What a pattern asks of its value.

ghost use Rattle.std.specs.Prelude.{◌≡◌, IfOk, List, length, map, Option, option_map};
ghost use Rattle.std.specs.Borrow.{Bor};
ghost use Rattle.abstract_syntax.specs.Values.{ValueTree};
ghost use Rattle.abstract_syntax.specs.ValueSets.{Entry};
ghost use Rattle.vdm_kinds.specs.declared.name_at.TypeName.{TypeName};
ghost use Rattle.pattern_meaning.specs.RecordTypes.{RecordType, stands_for};
ghost use Rattle.pattern_meaning.specs.Ways.{where_true, with_parts, as_many, is_same, literal_value, plainly, count_of_patterns, count_of_maplets, brackets_among, brackets_in, ways_of_items, ways_of_set, ways_of_map, ways_of_fronts};
ghost use Rattle.patterns.specs.Todos.{Opens, Leads, subject_tree, at};
ghost use Rattle.type_tree.specs.LiteralView.{literal_view};
ghost use Rattle.expr_tree.specs.View.{pattern_view, pattern_views, pattern_trees, maplet_pattern_view, maplet_pattern_trees};

use crate::literals::is_literal;
use crate::record_types::fields;
use crate::subject::Subject;
use crate::todo::{Next, Todo};
use expr_tree::{Literal, MapletPattern, Pattern, TypeNames};
use record_names::record_type;
use std::alloc::Global;
use vdm_kinds::{Name, OutOfMemory};
use vdm_values::Value;

/// What a pattern asks of its value.
pub(crate) fn open<'t, N: TypeNames>(
    alloc: Global,
    pattern: &'t Pattern,
    subject: Subject<'t>,
    scope: Name,
    names: &N,
) -> Result<Next<'t>, OutOfMemory>
    ensures { IfOk result (λ next. Opens (stands_for (N.found names.now) (N.rank names.now) scope) (pattern_view pattern.now) (subject_tree subject.entry) next) }
{
    match pattern {
        Pattern::AnyValue(_) => Ok(Next::Holds),
        Pattern::Bound(name, _) => Ok(Next::Binds(*name, subject)),
        Pattern::Literal(literal, _) => Ok(open_literal(literal, subject)),
        Pattern::EqualTo(_, _) => Ok(Next::Compares(subject)),
        Pattern::Set(parts, _) => Ok(open_set(alloc, parts.as_slice(), subject.elements())?),
        Pattern::Sequence(parts, _) => Ok(open_items(parts.as_slice(), subject.items())),
        Pattern::Map(maplets, _) => Ok(open_map(alloc, maplets.as_slice(), subject.entries())?),
        Pattern::EmptyMap(_) => Ok(open_empty(subject.entries())),
        Pattern::Tuple(parts, _) => Ok(open_items(parts.as_slice(), subject.components())),
        Pattern::Record(type_name, parts, _) => {
            let found = record_type(scope, *type_name, names)?;
            Ok(open_items(parts.as_slice(), fields(found, subject)))
        }
        Pattern::Concatenation(parts, _) => Ok(open_fronts(parts.as_slice(), subject.items())),
    }
}

fn open_literal<'t>(literal: &Literal, subject: Subject<'t>) -> Next<'t>
    ensures { (types : TypeName → Option RecordType) → Leads types (λ given. where_true (is_same (subject_tree subject.entry) (literal_value (literal_view literal.now))) plainly) 0 result }
{
    if is_literal(literal, subject) {
        Next::Holds
    } else {
        Next::Fails
    }
}

fn open_items<'t>(patterns: &'t [Pattern], items: Option<&'t [Value]>) -> Next<'t>
    ensures { (types : TypeName → Option RecordType) → Leads types (λ given. with_parts (option_map (λ r. r.now) items.entry) (λ vs. where_true (as_many (count_of_patterns (pattern_trees (pattern_views patterns.now))) (length vs)) (ways_of_items types (pattern_trees (pattern_views patterns.now)) given vs))) (brackets_among (pattern_trees (pattern_views patterns.now))) result }
{
    match items {
        Some(items) => {
            if patterns.len() == items.len() {
                Next::Becomes(Todo::Items(patterns, items))
            } else {
                Next::Fails
            }
        }
        None => Next::Fails,
    }
}

fn open_fronts<'t>(patterns: &'t [Pattern], items: Option<&'t [Value]>) -> Next<'t>
    ensures { (types : TypeName → Option RecordType) → Leads types (λ given. with_parts (option_map (λ r. r.now) items.entry) (ways_of_fronts types (pattern_trees (pattern_views patterns.now)) given)) (brackets_among (pattern_trees (pattern_views patterns.now))) result }
{
    match items {
        Some(items) => Next::Becomes(Todo::Split(patterns, items, 0)),
        None => Next::Fails,
    }
}

fn open_set<'t>(
    alloc: Global,
    patterns: &'t [Pattern],
    elements: Option<&'t [Value]>,
) -> Result<Next<'t>, OutOfMemory>
    ensures { (types : TypeName → Option RecordType) → IfOk result (Leads types (λ given. with_parts (option_map (λ r. r.now) elements.entry) (λ vs. where_true (as_many (count_of_patterns (pattern_trees (pattern_views patterns.now))) (length vs)) (ways_of_set types (pattern_trees (pattern_views patterns.now)) given vs))) (brackets_among (pattern_trees (pattern_views patterns.now)))) }
{
    match elements {
        Some(elements) => {
            if patterns.len() == elements.len() {
                let left = each_value(alloc, elements)?;
                Ok(Next::Becomes(Todo::Choose(patterns, left, 0)))
            } else {
                Ok(Next::Fails)
            }
        }
        None => Ok(Next::Fails),
    }
}

fn open_map<'t>(
    alloc: Global,
    maplets: &'t [MapletPattern],
    entries: Option<&'t [(Value, Value)]>,
) -> Result<Next<'t>, OutOfMemory>
    ensures { (types : TypeName → Option RecordType) → IfOk result (Leads types (λ given. with_parts (option_map (λ r. r.now) entries.entry) (λ es. where_true (as_many (count_of_maplets (maplet_pattern_trees (map maplet_pattern_view maplets.now))) (length es)) (ways_of_map types (maplet_pattern_trees (map maplet_pattern_view maplets.now)) given es))) (brackets_in (maplet_pattern_trees (map maplet_pattern_view maplets.now)))) }
{
    match entries {
        Some(entries) => {
            if maplets.len() == entries.len() {
                let left = each_pair(alloc, entries)?;
                Ok(Next::Becomes(Todo::ChoosePair(maplets, left, 0)))
            } else {
                Ok(Next::Fails)
            }
        }
        None => Ok(Next::Fails),
    }
}

fn open_empty<'t>(entries: Option<&'t [(Value, Value)]>) -> Next<'t>
    ensures { (types : TypeName → Option RecordType) → Leads types (λ given. with_parts (option_map (λ r. r.now) entries.entry) (λ es. where_true (as_many 0 (length es)) plainly)) 0 result }
{
    match entries {
        Some(entries) => {
            if entries.len() == 0 {
                Next::Holds
            } else {
                Next::Fails
            }
        }
        None => Next::Fails,
    }
}

// A reference to each value.
fn each_value(alloc: Global, values: &[Value]) -> Result<Vec<&Value>, OutOfMemory>
    ensures { IfOk result (λ references. at references.items ≡ values.now) }
{
    let mut references = Vec::with_capacity(alloc, values.len())?;
    for value in values {
        references.push(value)?;
    }
    Ok(references)
}

// A reference to each pair.
fn each_pair(alloc: Global, pairs: &[(Value, Value)]) -> Result<Vec<&(Value, Value)>, OutOfMemory>
    ensures { IfOk result (λ references. at references.items ≡ pairs.now) }
{
    let mut references = Vec::with_capacity(alloc, pairs.len())?;
    for pair in pairs {
        references.push(pair)?;
    }
    Ok(references)
}
