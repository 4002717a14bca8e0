// What is known of all parts of a node.

ghost use Rattle.std.specs.Prelude.{◌≡◌, ◌&&◌, map, not, if◌then◌else◌, IfOk};
ghost use Rattle.abstract_syntax.specs.Classes.{SpecTree};
ghost use Rattle.form_meaning.specs.Forms.{no_form, joined};
ghost use Rattle.class_checks.specs.Operators.{is_source};
ghost use Rattle.class_checks.specs.Shapes.{all_seen, parts_seen, every_other, all_but_first, forms_seen, unfit, seen_at};
ghost use Rattle.type_forms.specs.Tree.{form_trees};
ghost use Rattle.check_shapes.specs.InTurn.{in_turn};
ghost use Rattle.check_shapes.specs.ShapeView.{seen_view};
ghost use Rattle.check_operators.specs.Sources.{source_of};

use crate::shape::Seen;
use check_operators::{Operands, is_source};
use std::alloc::Global;
use type_forms::{Form, joined};
use vdm_kinds::OutOfMemory;

/// What may be of one of the parts: any value where there is none.
pub(crate) fn parts_seen(alloc: Global, done: &[Seen]) -> Result<Form, OutOfMemory>
    ensures { IfOk result (λ f. f ≡ parts_seen (map seen_view done.now)) }
{
    let count = done.len();
    if count < 1 {
        return Ok(Form::any());
    }
    all_seen(alloc, done)
}

fn all_seen(alloc: Global, done: &[Seen]) -> Result<Form, OutOfMemory>
    ensures { IfOk result (λ f. f ≡ all_seen no_form (map seen_view done.now)) }
{
    let mut known = Form::nothing();
    for seen in done {
        known = joined(alloc, known, &seen.form)?;
    }
    Ok(known)
}

/// What may be of one of the first, the third and so on.
pub(crate) fn keys_seen(alloc: Global, done: &[Seen]) -> Result<Form, OutOfMemory>
    ensures { IfOk result (λ f. f ≡ parts_seen (every_other (map seen_view done.now))) }
{
    let count = done.len();
    if count < 1 {
        return Ok(Form::any());
    }
    seen_in_turn(alloc, done, true)
}

/// What may be of one of the others.
pub(crate) fn values_seen(alloc: Global, done: &[Seen]) -> Result<Form, OutOfMemory>
    ensures { IfOk result (λ f. f ≡ parts_seen (every_other (all_but_first (map seen_view done.now)))) }
{
    let count = done.len();
    if count < 2 {
        return Ok(Form::any());
    }
    seen_in_turn(alloc, done, false)
}

// What may be of one of every other part, the first one or not.
fn seen_in_turn(alloc: Global, done: &[Seen], first: bool) -> Result<Form, OutOfMemory>
    ensures { IfOk result (λ f. f ≡ all_seen no_form (in_turn first (map seen_view done.now))) }
{
    let mut known = Form::nothing();
    let mut takes = first;
    for seen in done {
        known = joined_if(alloc, takes, known, &seen.form)?;
        takes = !takes;
    }
    Ok(known)
}

fn joined_if(alloc: Global, takes: bool, known: Form, form: &Form) -> Result<Form, OutOfMemory>
    ensures { IfOk result (λ f. f ≡ (if takes then joined known form.now else known)) }
{
    if takes {
        joined(alloc, known, form)
    } else {
        Ok(known)
    }
}

/// The forms of all parts, in order.
pub(crate) fn forms_seen(alloc: Global, done: &[Seen]) -> Result<Vec<Form>, OutOfMemory>
    ensures { IfOk result (λ forms. form_trees forms.items ≡ forms_seen (map seen_view done.now)) }
{
    let mut forms = Vec::with_capacity(alloc, done.len())?;
    for seen in done {
        forms.push(seen.form.copy()?)?;
    }
    Ok(forms)
}

/// The form of the part behind so many others: of any value where there is none.
pub(crate) fn seen_at(others: usize, done: &[Seen]) -> Result<Form, OutOfMemory>
    ensures { IfOk result (λ f. f ≡ seen_at others (map seen_view done.now)) }
{
    match done.get(others) {
        Some(seen) => seen.form.copy(),
        None => Ok(Form::any()),
    }
}

/// Whether one of the parts of which something is taken did not meet what its place wants.
pub(crate) fn is_unfit(source: Operands, done: &[Seen]) -> bool
    ensures { result ≡ unfit (is_source (source_of source)) 0 (map seen_view done.now) }
{
    for i in 0..done.len() {
        let seen = &done[i];
        if is_unfit_at(source, i, seen) {
            return true;
        }
    }
    false
}

fn is_unfit_at(source: Operands, others: usize, seen: &Seen) -> bool
    ensures { result ≡ (is_source (source_of source) others && not (seen_view seen.now).fits) }
{
    is_source(source, others) && !seen.fits
}
