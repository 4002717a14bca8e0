// What may be of the one form or of the other.

ghost use Rattle.std.specs.Prelude.{◌≡◌, IfOk, option_map};
ghost use Rattle.std.specs.Borrow.{Bor};
ghost use Rattle.form_meaning.specs.Forms.{one_of, joined, alt_joined, further, followed_by};
ghost use Rattle.type_forms.specs.Plain.{adds_nothing};
ghost use Rattle.type_forms.specs.JoinedAgain.{each_joined, parts_joined};
ghost use Rattle.type_forms.specs.declared.form.Alt.{Alt};
ghost use Rattle.type_forms.specs.Tree.{alt_of, alt_trees, form_trees};

use crate::form::{Alt, Form, Node};
use crate::kinds::{are_known, is_known, same_kind_in};
use std::alloc::Global;
use vdm_kinds::OutOfMemory;

/// What may be of the one form or of the other. Each kind stands there once, with what either says of its parts.
pub fn joined(alloc: Global, known: Form, other: &Form) -> Result<Form, OutOfMemory>
    ensures { IfOk result (λ f. f ≡ joined known other.now) }
{
    if adds_nothing(&known, other) {
        Ok(known)
    } else {
        joined_with(alloc, &known, other)
    }
}

// Whether it is plain that nothing new is said.
fn adds_nothing(known: &Form, other: &Form) -> bool
    ensures { result ≡ adds_nothing known.now other.now }
{
    match known.node() {
        Node::Any => true,
        Node::Nothing => false,
        Node::OneOf(alternatives) => match other.node() {
            Node::Any => false,
            Node::Nothing => true,
            Node::OneOf(others) => are_known(alternatives.as_slice(), others.as_slice()),
        },
    }
}

#[cycle(joining)]
fn joined_with(alloc: Global, known: &Form, other: &Form) -> Result<Form, OutOfMemory>
    ensures { IfOk result (λ f. f ≡ joined known.now other.now) }
{
    match known.node() {
        Node::Any => Ok(Form::any()),
        Node::Nothing => other.copy(),
        Node::OneOf(alternatives) => match other.node() {
            Node::Any => Ok(Form::any()),
            Node::Nothing => known.copy(),
            Node::OneOf(others) => alts_joined(alloc, alternatives.as_slice(), others.as_slice()),
        },
    }
}

#[cycle(joining)]
fn alts_joined(alloc: Global, alternatives: &[Alt], others: &[Alt]) -> Result<Form, OutOfMemory>
    ensures { IfOk result (λ f. f ≡ joined (one_of (alt_trees alternatives.now)) (one_of (alt_trees others.now))) }
{
    let made = each_joined(alloc, alternatives, others)?;
    let all = with_further(alloc, made, alternatives, others)?;
    Form::one_of(alloc, all)
}

// Each with the alternative of its kind among others, where there is one.
#[cycle(joining)]
fn each_joined(alloc: Global, alternatives: &[Alt], others: &[Alt]) -> Result<Vec<Alt>, OutOfMemory>
    ensures { IfOk result (λ made. alt_trees made.items ≡ each_joined (alt_trees alternatives.now) (alt_trees others.now)) }
{
    let mut made = Vec::with_capacity(alloc, alternatives.len())?;
    for alternative in alternatives {
        made.push(alt_joined(alloc, alternative, same_kind_in(alternative, others))?)?;
    }
    Ok(made)
}

#[cycle(joining)]
fn alt_joined(alloc: Global, alternative: &Alt, other: Option<&Alt>) -> Result<Alt, OutOfMemory>
    ensures { IfOk result (λ a. alt_of a ≡ alt_joined (alt_of alternative.now) (option_map (λ (a : Bor Alt). alt_of a.now) other.entry)) }
{
    let Some(other) = other else {
        return alternative.copy(alloc);
    };
    match (alternative, other) {
        (Alt::Tuple(parts), Alt::Tuple(others)) => Ok(Alt::Tuple(parts_joined(
            alloc,
            parts.as_slice(),
            others.as_slice(),
        )?)),
        (Alt::Seq(items), Alt::Seq(others)) => Ok(Alt::Seq(joined_with(alloc, items, others)?)),
        (Alt::Set(elements), Alt::Set(others)) => Ok(Alt::Set(joined_with(
            alloc, elements, others,
        )?)),
        (Alt::Map(keys, values), Alt::Map(other_keys, other_values)) => {
            let keys = joined_with(alloc, keys, other_keys)?;
            Ok(Alt::Map(keys, joined_with(alloc, values, other_values)?))
        }
        _ => alternative.copy(alloc),
    }
}

#[cycle(joining)]
fn parts_joined(alloc: Global, parts: &[Form], others: &[Form]) -> Result<Vec<Form>, OutOfMemory>
    ensures { IfOk result (λ made. form_trees made.items ≡ parts_joined (form_trees parts.now) (form_trees others.now)) }
{
    let mut made = Vec::with_capacity(alloc, parts.len())?;
    let mut left = others;
    for part in parts {
        match left {
            [] => made.push(part.copy()?)?,
            [other, after @ ..] => {
                made.push(joined_with(alloc, part, other)?)?;
                left = after;
            }
        }
    }
    Ok(made)
}

// Behind what was made, those of the second list that are of no kind of the first.
fn with_further(
    alloc: Global,
    made: Vec<Alt>,
    alternatives: &[Alt],
    others: &[Alt],
) -> Result<Vec<Alt>, OutOfMemory>
    ensures { IfOk result (λ all. alt_trees all.items ≡ followed_by (alt_trees made.items) (further (alt_trees alternatives.now) (alt_trees others.now))) }
{
    let mut all = made;
    for other in others {
        if !is_known(other, alternatives) {
            all.push(other.copy(alloc)?)?;
        }
    }
    Ok(all)
}
