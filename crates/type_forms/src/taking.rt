// What is known of the parts of a value, by its form.

ghost use Rattle.std.specs.Prelude.{◌≡◌, IfOk, option_map};
ghost use Rattle.std.specs.Borrow.{Bor};
ghost use Rattle.form_meaning.specs.Forms.{FormTree, no_form, joined};
ghost use Rattle.form_meaning.specs.Parts.{taken, taken_of, form_at};
ghost use Rattle.type_forms.specs.Taking.{take_of, form_or_none};
ghost use Rattle.type_forms.specs.Tree.{alt_of, alt_trees, form_trees};

use crate::form::{Alt, Form, Node};
use crate::joining::joined;
use std::alloc::Global;
use vdm_kinds::OutOfMemory;

/// Which part of a value is taken.
#[derive(Clone, Copy, Debug, PartialEq, Eq)]
pub enum PartOf {
    /// An element of a set.
    Element,
    /// An item of a sequence.
    Item,
    /// A key of a map.
    Key,
    /// A value of a map.
    Value,
    /// What stands in a sequence at a position, or in a map at a key.
    AtArgument,
    /// The part of a tuple behind so many others.
    Behind(usize),
}

/// What is known of a part of the values of a form.
pub fn taken(alloc: Global, part: PartOf, form: &Form) -> Result<Form, OutOfMemory>
    ensures { IfOk result (λ f. f ≡ taken (take_of part) form.now) }
{
    match form.node() {
        Node::Any => Ok(Form::any()),
        Node::Nothing => Ok(Form::nothing()),
        Node::OneOf(alternatives) => taken_of(alloc, part, alternatives.as_slice()),
    }
}

// What is known of a part of the values of some of these kinds.
fn taken_of(alloc: Global, part: PartOf, alternatives: &[Alt]) -> Result<Form, OutOfMemory>
    ensures { IfOk result (λ f. f ≡ taken_of (take_of part) no_form (alt_trees alternatives.now)) }
{
    let mut known = Form::nothing();
    for alternative in alternatives {
        known = with_part(alloc, part, known, alternative)?;
    }
    Ok(known)
}

// What is known, and what is known of a part of the values of a kind.
fn with_part(
    alloc: Global,
    part: PartOf,
    known: Form,
    alternative: &Alt,
) -> Result<Form, OutOfMemory>
    ensures { IfOk result (λ f. f ≡ joined known (take_of part (alt_of alternative.now))) }
{
    match part_of(part, alternative) {
        Some(taken) => joined(alloc, known, taken),
        None => Ok(known),
    }
}

// The part of the values of a kind. None where they have no such part.
fn part_of(part: PartOf, alternative: &Alt) -> Option<&Form>
    ensures { form_or_none (option_map (λ (f : Bor FormTree). f.now) result) ≡ take_of part (alt_of alternative.now) }
{
    match (part, alternative) {
        (PartOf::Element, Alt::Set(elements)) => Some(elements),
        (PartOf::Item, Alt::Seq(items)) => Some(items),
        (PartOf::Key, Alt::Map(keys, _)) => Some(keys),
        (PartOf::Value, Alt::Map(_, values)) => Some(values),
        (PartOf::AtArgument, Alt::Seq(items)) => Some(items),
        (PartOf::AtArgument, Alt::Map(_, values)) => Some(values),
        (PartOf::Behind(n), Alt::Tuple(parts)) => form_at(n, parts.as_slice()),
        _ => None,
    }
}

fn form_at(n: usize, forms: &[Form]) -> Option<&Form>
    ensures { form_or_none (option_map (λ (f : Bor FormTree). f.now) result) ≡ form_at n (form_trees forms.now) }
{
    forms.get(n)
}
