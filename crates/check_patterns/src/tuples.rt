// The forms of the parts of tuples.

ghost use Rattle.std.specs.Prelude.{◌≡◌, nat_eq, IfOk, option_map};
ghost use Rattle.std.specs.Borrow.{Bor};
ghost use Rattle.form_meaning.specs.Forms.{FormTree, no_form, joined, tuple_alt, form_count};
ghost use Rattle.form_meaning.specs.Parts.{taken, taken_of, form_at};
ghost use Rattle.class_checks.specs.Patterns.{parts_of, part_of_length, tuple_of, any_parts};
ghost use Rattle.check_types.specs.Below.check_scopes.specs.Told.{spec_in};
ghost use Rattle.type_forms.specs.Taking.{form_or_none};
ghost use Rattle.type_forms.specs.Tree.{alt_of, alt_trees, form_trees};

use check_types::handed::check_scopes::Setting;
use std::alloc::Global;
use type_forms::{Alt, Form, Node, joined};
use vdm_kinds::OutOfMemory;

/// The form of the part of a tuple of so many, behind so many others.
pub(crate) fn tuple_part(
    alloc: Global,
    setting: Setting<'_>,
    count: usize,
    index: usize,
    form: &Form,
) -> Result<Form, OutOfMemory>
    ensures { IfOk result (λ f. f ≡ parts_of (spec_in setting.entry) (tuple_of count) (part_of_length count index) form.now) }
{
    let want = tuple_of(alloc, count)?;
    if setting.meets(form, &want) {
        let known = taken_part(alloc, count, index, form)?;
        setting.opened(alloc, &known)
    } else {
        Ok(Form::any())
    }
}

// A tuple of so many parts of any form.
fn tuple_of(alloc: Global, count: usize) -> Result<Form, OutOfMemory>
    ensures { IfOk result (λ f. f ≡ tuple_of count) }
{
    let parts = any_parts(alloc, count)?;
    Form::only(alloc, Alt::Tuple(parts))
}

fn any_parts(alloc: Global, count: usize) -> Result<Vec<Form>, OutOfMemory>
    ensures { IfOk result (λ parts. form_trees parts.items ≡ any_parts count) }
{
    let mut parts = Vec::with_capacity(alloc, count)?;
    for done in 0..count {
        parts.push(Form::any())?;
    }
    Ok(parts)
}

// What is known of the part of the values of a form that are tuples of so many.
fn taken_part(alloc: Global, count: usize, index: usize, form: &Form) -> Result<Form, OutOfMemory>
    ensures { IfOk result (λ f. f ≡ taken (part_of_length count index) form.now) }
{
    match form.node() {
        Node::Any => Ok(Form::any()),
        Node::Nothing => Ok(Form::nothing()),
        Node::OneOf(alternatives) => taken_of(alloc, count, index, alternatives.as_slice()),
    }
}

fn taken_of(
    alloc: Global,
    count: usize,
    index: usize,
    alternatives: &[Alt],
) -> Result<Form, OutOfMemory>
    ensures { IfOk result (λ f. f ≡ taken_of (part_of_length count index) no_form (alt_trees alternatives.now)) }
{
    let mut known = Form::nothing();
    for alternative in alternatives {
        known = with_part(alloc, count, index, known, alternative)?;
    }
    Ok(known)
}

// What is known, and what is known of the part of the values of a kind.
fn with_part(
    alloc: Global,
    count: usize,
    index: usize,
    known: Form,
    alternative: &Alt,
) -> Result<Form, OutOfMemory>
    ensures { IfOk result (λ f. f ≡ joined known (part_of_length count index (alt_of alternative.now))) }
{
    match part_of(count, index, alternative) {
        Some(part) => joined(alloc, known, part),
        None => Ok(known),
    }
}

// The part of the values of a kind. None where they are no tuples of so many.
fn part_of(count: usize, index: usize, alternative: &Alt) -> Option<&Form>
    ensures { form_or_none (option_map (λ (f : Bor FormTree). f.now) result) ≡ part_of_length count index (alt_of alternative.now) }
{
    match alternative {
        Alt::Tuple(parts) => part_in(count, index, parts.as_slice()),
        _ => None,
    }
}

fn part_in(count: usize, index: usize, parts: &[Form]) -> Option<&Form>
    ensures { form_or_none (option_map (λ (f : Bor FormTree). f.now) result) ≡ part_of_length count index (tuple_alt (form_trees parts.now)) }
{
    if is_of_length(count, parts) {
        form_at(index, parts)
    } else {
        None
    }
}

#[tactic(auto, using(crate::proofs::Counts::count_of_forms))]
fn is_of_length(count: usize, parts: &[Form]) -> bool
    ensures { result ≡ nat_eq count (form_count (form_trees parts.now)) }
{
    count == parts.len()
}

fn form_at(index: usize, forms: &[Form]) -> Option<&Form>
    ensures { form_or_none (option_map (λ (f : Bor FormTree). f.now) result) ≡ form_at index (form_trees forms.now) }
{
    forms.get(index)
}
