// What is selected behind an object or a record, of all kinds of its form together.

ghost use Rattle.std.specs.Prelude.{◌≡◌, ℕ, ◌++◌, ◌∷◌, [], List, None, Some, option_map, IfOk};
ghost use Rattle.vdm_kinds.specs.declared.spec_fault.SpecFault.{SpecFault};
ghost use Rattle.class_meaning.specs.Classes.{class_number};
ghost use Rattle.class_checks.specs.Callees.{Callee as CalleeTree, Selected as SelectedTree, Selection as SelectionTree, of_alternative as of_kind, class_callee as callee_of_class, only_selected as only_the_selected, refused_callee as callee_refused, selected_callee as callee_selected, selected_of_class as callee_selected_of_class, settled as settled_by, unless_refused as callee_unless_refused, wants_joined as joined_wants};
ghost use Rattle.class_checks.specs.Results.{first_among};
ghost use Rattle.class_checks.specs.Scopes.{Locals};
ghost use Rattle.check_fields.specs.Below.check_scopes.specs.Told.{first_in, scope_at, spec_in};
ghost use Rattle.form_meaning.specs.Forms.{joined, one_of};
ghost use Rattle.check_calls.specs.Calling.{Calls, called, made};
ghost use Rattle.check_names.specs.Noting.{first_of_both};
ghost use Rattle.check_calls.specs.Selecting.{all_of, all_shown, among_shown, both_called, found_as, found_view, nothing_shown, refused_by, shown, shown_of, use_view, with_shown};
ghost use Rattle.type_forms.specs.Tree.{alt_of, alt_trees, form_trees};

use crate::callee::{Callee, of_any_arguments, refused_callee};
use crate::selected::{Selected, Use, in_object_class, of_alternative};
use check_fields::handed::check_scopes::{Refusals, Setting};
use check_names::refuse_first;
use std::alloc::Global;
use type_forms::{Alt, Form, Node, joined};
use vdm_kinds::{NameAt, OutOfMemory, Place, SpecFault, SpecKind};

/// What is selected, and the first refusal of it.
#[derive(Drop)]
pub(crate) struct Found {
    callee: Callee,
    first: Option<SpecFault>,
}

/// What some kinds of values have, and the first refusal of the others.
#[derive(Drop)]
pub(crate) struct Selection {
    found: Option<Found>,
    refused: Option<SpecFault>,
}

/// What a name behind an object or a record is.
pub fn selected_callee(
    alloc: Global,
    setting: Setting<'_>,
    refusals: &mut Refusals,
    way: Use,
    target_place: Place,
    named: NameAt,
    form: &Form,
) -> Result<Callee, OutOfMemory>
    ensures { IfOk result (λ callee. (names : Locals) → Calls (first_in refusals.old) (first_in refusals.new) callee (callee_selected (spec_in setting.entry) (scope_at setting.entry names) (use_view way) target_place named.name named.place form.now)) }
{
    match form.node() {
        Node::Any => Ok(of_any_arguments(alloc, Form::any())),
        Node::Nothing => {
            Ok(refused_callee(alloc, refusals, SpecKind::NoCommonValue, target_place))
        }
        Node::OneOf(alternatives) => {
            let alternatives = alternatives.as_slice();
            of_alternatives(
                alloc,
                setting,
                refusals,
                way,
                target_place,
                named,
                alternatives,
            )
        }
    }
}

fn of_alternatives(
    alloc: Global,
    setting: Setting<'_>,
    refusals: &mut Refusals,
    way: Use,
    target_place: Place,
    named: NameAt,
    alternatives: &[Alt],
) -> Result<Callee, OutOfMemory>
    ensures { IfOk result (λ callee. (names : Locals) → Calls (first_in refusals.old) (first_in refusals.new) callee (callee_selected (spec_in setting.entry) (scope_at setting.entry names) (use_view way) target_place named.name named.place (one_of (alt_trees alternatives.now)))) }
{
    let known = among(alloc, setting, way, named, alternatives)?;
    Ok(settled(alloc, refusals, target_place, known))
}

fn among(
    alloc: Global,
    setting: Setting<'_>,
    way: Use,
    named: NameAt,
    alternatives: &[Alt],
) -> Result<Selection, OutOfMemory>
    ensures { IfOk result (λ known. (names : Locals) → among_shown (spec_in setting.entry) (scope_at setting.entry names) (use_view way) named.name named.place nothing_shown (alt_trees alternatives.now) ≡ all_shown known) }
{
    let mut known = Selection {
        found: None,
        refused: None,
    };
    for alternative in alternatives {
        known = with_alternative(alloc, setting, way, named, known, alternative)?;
    }
    Ok(known)
}

fn with_alternative(
    alloc: Global,
    setting: Setting<'_>,
    way: Use,
    named: NameAt,
    known: Selection,
    alternative: &Alt,
) -> Result<Selection, OutOfMemory>
    ensures { IfOk result (λ more. (names : Locals) → with_shown (all_shown known) (shown_of (of_kind (spec_in setting.entry) (scope_at setting.entry names) (use_view way) named.name named.place (alt_of alternative.now))) ≡ all_shown more) }
{
    let selected = of_alternative(alloc, setting, way, named, alternative)?;
    with_selected(alloc, known, selected)
}

fn with_selected(
    alloc: Global,
    known: Selection,
    selected: Selected,
) -> Result<Selection, OutOfMemory>
    ensures { IfOk result (λ more. with_shown (all_shown known) (shown selected) ≡ all_shown more) }
{
    match selected {
        Selected::Nothing => Ok(known),
        Selected::Refused(first) => Ok(also_refused(known, first)),
        Selected::Found(callee, first) => also_found(alloc, known, Found { callee, first }),
    }
}

fn also_refused(known: Selection, first: Option<SpecFault>) -> Selection
    ensures { with_shown (all_shown known) (refused_by first) ≡ all_shown result }
{
    let Selection { found, refused } = known;
    Selection {
        found,
        refused: either_first(refused, first),
    }
}

fn also_found(alloc: Global, known: Selection, found: Found) -> Result<Selection, OutOfMemory>
    ensures { IfOk result (λ more. with_shown (all_shown known) (found_as (made found.first found.callee)) ≡ all_shown more) }
{
    let Selection {
        found: earlier,
        refused,
    } = known;
    let found = found_too(alloc, earlier, found)?;
    Ok(Selection {
        found: Some(found),
        refused,
    })
}

fn found_too(alloc: Global, earlier: Option<Found>, found: Found) -> Result<Found, OutOfMemory>
    ensures { IfOk result (λ both. both_called (option_map found_view earlier) (found_view found) ≡ found_view both) }
{
    match earlier {
        Some(known) => both(alloc, known, &found),
        None => Ok(found),
    }
}

fn both(alloc: Global, known: Found, found: &Found) -> Result<Found, OutOfMemory>
    ensures { IfOk result (λ both. both_called (Some (found_view known)) (found_view found.now) ≡ found_view both) }
{
    let Found { callee, first } = known;
    let Callee { wants, result } = callee;
    let wants = wants_joined(alloc, wants.as_slice(), found.callee.wants.as_slice())?;
    let result = joined(alloc, result, &found.callee.result)?;
    Ok(Found {
        callee: Callee { wants, result },
        first: either_first(first, found.first),
    })
}

// Where one has more arguments than the other, these may be of any form.
fn wants_joined(alloc: Global, known: &[Form], others: &[Form]) -> Result<Vec<Form>, OutOfMemory>
    ensures { IfOk result (λ wants. form_trees wants.items ≡ joined_wants (form_trees known.now) (form_trees others.now)) }
{
    let mut wants = Vec::with_capacity(alloc, known.len())?;
    let count = others.len();
    for i in 0..known.len() {
        if i >= count {
            return Ok(wants);
        }
        wants = with_joined(alloc, wants, &known[i], &others[i])?;
    }
    Ok(wants)
}

fn with_joined(
    alloc: Global,
    wants: Vec<Form>,
    known: &Form,
    other: &Form,
) -> Result<Vec<Form>, OutOfMemory>
    ensures { IfOk result (λ more. more.items ≡ wants.items ++ joined known.now other.now ∷ []) }
{
    let mut more = wants;
    more.push(joined(alloc, known.copy()?, other)?)?;
    Ok(more)
}

fn either_first(first: Option<SpecFault>, other: Option<SpecFault>) -> Option<SpecFault>
    ensures { result ≡ first_of_both first other }
{
    let mut refusals = Refusals::new();
    refuse_first(&mut refusals, first);
    refuse_first(&mut refusals, other);
    refusals.first()
}

// One kind that has the member is enough; where none is a record with the field, nor an object, the target does not fit.
fn settled(alloc: Global, refusals: &mut Refusals, target_place: Place, known: Selection) -> Callee
    ensures { (selection : SelectionTree) → all_of selection ≡ all_shown known → Calls (first_in refusals.old) (first_in refusals.new) result (settled_by target_place selection) }
{
    let Selection { found, refused } = known;
    match found {
        Some(found) => told_of(refusals, found),
        None => unless_refused(alloc, refusals, target_place, refused),
    }
}

// What was found, once what is refused of it is told.
fn told_of(refusals: &mut Refusals, found: Found) -> Callee
    ensures { (tree : CalleeTree) → called None tree ≡ found_view found → Calls (first_in refusals.old) (first_in refusals.new) result tree }
{
    let Found { callee, first } = found;
    refuse_first(refusals, first);
    callee
}

fn refused_first(alloc: Global, refusals: &mut Refusals, first: Option<SpecFault>) -> Callee
    ensures { (others : List SpecFault) → first_among None others ≡ first → Calls (first_in refusals.old) (first_in refusals.new) result (callee_refused others) }
{
    refuse_first(refusals, first);
    of_any_arguments(alloc, Form::any())
}

fn unless_refused(
    alloc: Global,
    refusals: &mut Refusals,
    target_place: Place,
    refused: Option<SpecFault>,
) -> Callee
    ensures { (others : List SpecFault) → first_among None others ≡ refused → Calls (first_in refusals.old) (first_in refusals.new) result (callee_unless_refused target_place others) }
{
    match refused {
        Some(first) => refused_first(alloc, refusals, Some(first)),
        None => refused_callee(alloc, refusals, SpecKind::NoCommonValue, target_place),
    }
}

/// ``e.C`x``: an object of `C` is wanted, and what `x` means in `C`.
pub fn selected_of_class(
    alloc: Global,
    setting: Setting<'_>,
    refusals: &mut Refusals,
    way: Use,
    target_place: Place,
    class: NameAt,
    named: NameAt,
    form: &Form,
) -> Result<Callee, OutOfMemory>
    ensures { IfOk result (λ callee. (names : Locals) → Calls (first_in refusals.old) (first_in refusals.new) callee (callee_selected_of_class (spec_in setting.entry) (scope_at setting.entry names) (use_view way) target_place class.name class.place named.name named.place form.now)) }
{
    match setting.table.number(class.name) {
        Some(_) => of_known_class(
            alloc,
            setting,
            refusals,
            way,
            target_place,
            class,
            named,
            form,
        ),
        None => Ok(refused_callee(alloc, refusals, SpecKind::UnknownName, class.place)),
    }
}

fn of_known_class(
    alloc: Global,
    setting: Setting<'_>,
    refusals: &mut Refusals,
    way: Use,
    target_place: Place,
    class: NameAt,
    named: NameAt,
    form: &Form,
) -> Result<Callee, OutOfMemory>
    ensures { IfOk result (λ callee. (names : Locals) (k : ℕ) → class_number (spec_in setting.entry) class.name ≡ Some k → Calls (first_in refusals.old) (first_in refusals.new) callee (callee_of_class (spec_in setting.entry) (scope_at setting.entry names) (use_view way) target_place class.name class.place named.name named.place form.now (class_number (spec_in setting.entry) class.name))) }
{
    let wanted = Form::only(alloc, Alt::Object(class.name))?;
    let fits = setting.meets(form, &wanted);
    refusals.refuse_if(!fits, SpecKind::NoCommonValue, target_place);
    let selected = in_object_class(alloc, setting, way, class.name, named)?;
    Ok(only_selected(alloc, refusals, selected))
}

fn only_selected(alloc: Global, refusals: &mut Refusals, selected: Selected) -> Callee
    ensures { (tree : SelectedTree) → shown_of tree ≡ shown selected → Calls (first_in refusals.old) (first_in refusals.new) result (only_the_selected tree) }
{
    match selected {
        Selected::Nothing => of_any_arguments(alloc, Form::any()),
        Selected::Refused(first) => refused_first(alloc, refusals, first),
        Selected::Found(callee, first) => told_of(refusals, Found { callee, first }),
    }
}
