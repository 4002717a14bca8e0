// What a pattern binds, and what stands in it.

ghost use Rattle.std.specs.Prelude.{◌≡◌, ◌+◌, ◌∷◌, ◌++◌, List, [], map, drop, IfOk, MatchOption};
ghost use Rattle.vdm_kinds.specs.declared.name.Name.{Name as NameOf};
ghost use Rattle.abstract_syntax.specs.Classes.{SpecTree};
ghost use Rattle.expr_tree.specs.View.{pattern_view, pattern_views, pattern_trees, maplet_pattern_view, maplet_pattern_trees};
ghost use Rattle.class_checks.specs.Patterns.{binds, binds_each, binds_maplets, binds_parts, binds_fields, parts_of};
ghost use Rattle.class_checks.specs.Operators.{any_map};
ghost use Rattle.form_meaning.specs.Parts.{key, value};
ghost use Rattle.class_checks.specs.Scopes.{LocalForm as FoundForm};
ghost use Rattle.check_types.specs.Below.check_scopes.specs.Told.{spec_in, types_in};
ghost use Rattle.check_patterns.specs.Pending.{all_found, found_before, pending_binds};
ghost use Rattle.check_patterns.specs.Shown.{local_view};

use crate::inner_forms::{elements_of, fronts_of, items_of, map_part};
use crate::local_form::LocalForm;
use crate::pending::{Binding, Pending};
use crate::records::{field_form, record_parts};
use crate::tuples::tuple_part;
use check_types::handed::check_scopes::Setting;
use expr_tree::{MapletPattern, Pattern};
use std::alloc::Global;
use type_forms::{Form, PartOf};
use vdm_kinds::{Name, OutOfMemory};

/// Behind what is found already, what the patterns bind. The text bounds the steps, and no memory would hold as many as are
/// counted.
pub(crate) fn all_bound(
    alloc: Global,
    setting: Setting<'_>,
    binding: Binding<'_>,
) -> Result<Vec<LocalForm>, OutOfMemory>
    ensures { IfOk result (λ all. map local_view all.items ≡ all_found (spec_in setting.entry) (types_in setting.entry) binding.entry) }
{
    let mut binding = binding;
    for step in 0..u64::MAX {
        let Some(next) = next_of(&mut binding) else {
            return Ok(binding.found);
        };
        binding = with_next(alloc, setting, binding, next)?;
    }
    Err(OutOfMemory)
}

// What comes next, taken out.
fn next_of<'t>(binding: &mut Binding<'t>) -> Option<Pending<'t>>
    ensures { (spec : SpecTree) (class : NameOf) → MatchOption result (all_found spec class binding.old ≡ map local_view binding.new.found.items) (λ next. all_found spec class binding.old ≡ found_before spec class binding.new (pending_binds spec class next)) }
{
    binding.pending.pop()
}

// What was taken out, and then the rest.
fn with_next<'t>(
    alloc: Global,
    setting: Setting<'_>,
    binding: Binding<'t>,
    next: Pending<'t>,
) -> Result<Binding<'t>, OutOfMemory>
    ensures { IfOk result (λ all. all_found (spec_in setting.entry) (types_in setting.entry) all ≡ found_before (spec_in setting.entry) (types_in setting.entry) binding.entry (pending_binds (spec_in setting.entry) (types_in setting.entry) next.entry)) }
{
    match next {
        Pending::One(form, pattern) => with_pattern(alloc, setting, binding, form, pattern),
        Pending::Each(form, patterns) => with_each(alloc, setting, binding, form, patterns),
        Pending::Parts(form, count, index, patterns) => {
            with_parts(alloc, setting, binding, form, count, index, patterns)
        }
        Pending::Fields(forms, index, patterns) => {
            with_fields(alloc, setting, binding, forms, index, patterns)
        }
        Pending::Maplets(keys, values, maplets) => {
            with_maplets(alloc, setting, binding, keys, values, maplets)
        }
    }
}

/// This comes before all others.
pub(crate) fn put<'t>(binding: Binding<'t>, next: Pending<'t>) -> Result<Binding<'t>, OutOfMemory>
    ensures only { (spec : SpecTree) (class : NameOf) → IfOk result (λ all. all_found spec class all ≡ found_before spec class binding.entry (pending_binds spec class next.entry)) }
    ensures behind { (spec : SpecTree) (class : NameOf) (first : List FoundForm) → IfOk result (λ all. found_before spec class all first ≡ found_before spec class binding.entry (first ++ pending_binds spec class next.entry)) }
{
    let mut binding = binding;
    binding.pending.push(next)?;
    Ok(binding)
}

// A pattern, and then what comes behind it.
fn with_first<'t>(
    alloc: Global,
    setting: Setting<'_>,
    binding: Binding<'t>,
    form: Form,
    pattern: &'t Pattern,
    others: Pending<'t>,
) -> Result<Binding<'t>, OutOfMemory>
    ensures { IfOk result (λ all. all_found (spec_in setting.entry) (types_in setting.entry) all ≡ found_before (spec_in setting.entry) (types_in setting.entry) binding.entry (binds (spec_in setting.entry) (types_in setting.entry) form (pattern_view pattern.entry.now) ++ pending_binds (spec_in setting.entry) (types_in setting.entry) others.entry)) }
{
    let binding = put(binding, others)?;
    with_pattern(alloc, setting, binding, form, pattern)
}

// A name is bound.
fn with_name<'t>(binding: Binding<'t>, name: Name, form: Form) -> Result<Binding<'t>, OutOfMemory>
    ensures { (spec : SpecTree) (class : NameOf) → IfOk result (λ all. all_found spec class all ≡ found_before spec class binding.entry (record { name = name; form = form } ∷ [])) }
{
    let mut binding = binding;
    binding.found.push(LocalForm { name, form })?;
    Ok(binding)
}

/// A pattern, and what stands in it.
pub(crate) fn with_pattern<'t>(
    alloc: Global,
    setting: Setting<'_>,
    binding: Binding<'t>,
    form: Form,
    pattern: &'t Pattern,
) -> Result<Binding<'t>, OutOfMemory>
    ensures { IfOk result (λ all. all_found (spec_in setting.entry) (types_in setting.entry) all ≡ found_before (spec_in setting.entry) (types_in setting.entry) binding.entry (binds (spec_in setting.entry) (types_in setting.entry) form (pattern_view pattern.entry.now))) }
{
    match pattern {
        Pattern::AnyValue(_) => Ok(binding),
        Pattern::Bound(name, _) => with_name(binding, *name, form),
        Pattern::Literal(_, _) => Ok(binding),
        Pattern::EqualTo(_, _) => Ok(binding),
        Pattern::EmptyMap(_) => Ok(binding),
        Pattern::Map(maplets, _) => with_map(alloc, setting, binding, &form, maplets.as_slice()),
        Pattern::Set(parts, _) => {
            let elements = elements_of(alloc, setting, &form)?;
            put(binding, Pending::Each(elements, parts.as_slice()))
        }
        Pattern::Sequence(parts, _) => {
            let items = items_of(alloc, setting, &form)?;
            put(binding, Pending::Each(items, parts.as_slice()))
        }
        Pattern::Concatenation(parts, _) => {
            let fronts = fronts_of(alloc, setting, &form)?;
            put(binding, Pending::Each(fronts, parts.as_slice()))
        }
        Pattern::Tuple(parts, _) => {
            let all = Pending::Parts(form, parts.len(), 0, parts.as_slice());
            put(binding, all)
        }
        Pattern::Record(type_name, parts, _) => {
            let forms = record_parts(alloc, setting, &form, *type_name)?;
            put(binding, Pending::Fields(forms, 0, parts.as_slice()))
        }
    }
}

// The keys and the values of a map.
fn with_map<'t>(
    alloc: Global,
    setting: Setting<'_>,
    binding: Binding<'t>,
    form: &Form,
    maplets: &'t [MapletPattern],
) -> Result<Binding<'t>, OutOfMemory>
    ensures { IfOk result (λ all. all_found (spec_in setting.entry) (types_in setting.entry) all ≡ found_before (spec_in setting.entry) (types_in setting.entry) binding.entry (binds_maplets (spec_in setting.entry) (types_in setting.entry) (parts_of (spec_in setting.entry) any_map key form.now) (parts_of (spec_in setting.entry) any_map value form.now) (maplet_pattern_trees (map maplet_pattern_view maplets.entry.now)))) }
{
    let keys = map_part(alloc, setting, PartOf::Key, form)?;
    let values = map_part(alloc, setting, PartOf::Value, form)?;
    put(binding, Pending::Maplets(keys, values, maplets))
}

// All of one form.
fn with_each<'t>(
    alloc: Global,
    setting: Setting<'_>,
    binding: Binding<'t>,
    form: Form,
    patterns: &'t [Pattern],
) -> Result<Binding<'t>, OutOfMemory>
    ensures { IfOk result (λ all. all_found (spec_in setting.entry) (types_in setting.entry) all ≡ found_before (spec_in setting.entry) (types_in setting.entry) binding.entry (binds_each (spec_in setting.entry) (types_in setting.entry) form (pattern_trees (pattern_views patterns.entry.now)))) }
{
    match patterns {
        [] => Ok(binding),
        [pattern, patterns @ ..] => {
            let one = form.copy()?;
            with_first(
                alloc,
                setting,
                binding,
                one,
                pattern,
                Pending::Each(form, patterns),
            )
        }
    }
}

// The parts of a tuple of so many, behind so many others.
fn with_parts<'t>(
    alloc: Global,
    setting: Setting<'_>,
    binding: Binding<'t>,
    form: Form,
    count: usize,
    index: usize,
    patterns: &'t [Pattern],
) -> Result<Binding<'t>, OutOfMemory>
    ensures { IfOk result (λ all. all_found (spec_in setting.entry) (types_in setting.entry) all ≡ found_before (spec_in setting.entry) (types_in setting.entry) binding.entry (binds_parts (spec_in setting.entry) (types_in setting.entry) form count index (pattern_trees (pattern_views patterns.entry.now)))) }
{
    match patterns {
        [] => Ok(binding),
        [pattern, patterns @ ..] => {
            let part = tuple_part(alloc, setting, count, index, &form)?;
            let next = next_number(index)?;
            let others = Pending::Parts(form, count, next, patterns);
            with_first(alloc, setting, binding, part, pattern, others)
        }
    }
}

// The number of what comes next.
fn next_number(index: usize) -> Result<usize, OutOfMemory>
    ensures { IfOk result (λ next. next ≡ index + 1) }
{
    index.checked_add(1).ok_or(OutOfMemory)
}

// The fields of a record, from the number on.
fn with_fields<'t>(
    alloc: Global,
    setting: Setting<'_>,
    binding: Binding<'t>,
    forms: Vec<Form>,
    index: usize,
    patterns: &'t [Pattern],
) -> Result<Binding<'t>, OutOfMemory>
    ensures { IfOk result (λ all. all_found (spec_in setting.entry) (types_in setting.entry) all ≡ found_before (spec_in setting.entry) (types_in setting.entry) binding.entry (binds_fields (spec_in setting.entry) (types_in setting.entry) (drop index forms.items) (pattern_trees (pattern_views patterns.entry.now)))) }
{
    match patterns {
        [] => Ok(binding),
        [pattern, patterns @ ..] => {
            let field = field_form(forms.as_slice(), index)?;
            let next = next_number(index)?;
            let others = Pending::Fields(forms, next, patterns);
            with_first(alloc, setting, binding, field, pattern, others)
        }
    }
}

// Keys and values.
fn with_maplets<'t>(
    alloc: Global,
    setting: Setting<'_>,
    binding: Binding<'t>,
    keys: Form,
    values: Form,
    maplets: &'t [MapletPattern],
) -> Result<Binding<'t>, OutOfMemory>
    ensures { IfOk result (λ all. all_found (spec_in setting.entry) (types_in setting.entry) all ≡ found_before (spec_in setting.entry) (types_in setting.entry) binding.entry (binds_maplets (spec_in setting.entry) (types_in setting.entry) keys values (maplet_pattern_trees (map maplet_pattern_view maplets.entry.now)))) }
{
    match maplets {
        [] => Ok(binding),
        [maplet, maplets @ ..] => {
            let key = keys.copy()?;
            let value = values.copy()?;
            let binding = put(binding, Pending::Maplets(keys, values, maplets))?;
            let others = Pending::One(value, &maplet.value);
            with_first(alloc, setting, binding, key, &maplet.key, others)
        }
    }
}
