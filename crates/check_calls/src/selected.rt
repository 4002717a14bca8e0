// What one kind of values has of a name: a field of a record, or a member of an object.

ghost use Rattle.std.specs.Prelude.{◌≡◌, ℕ, ◌∷◌, [], List, None, Some, IfOk};
ghost use Rattle.vdm_kinds.specs.declared.spec_fault.SpecFault.{SpecFault};
ghost use Rattle.class_meaning.specs.Classes.{class_number};
ghost use Rattle.class_meaning.specs.Members.{of_operation, of_variable};
ghost use Rattle.class_checks.specs.Callees.{called_meant as meant_called, called_member as member_called, in_object_class as in_class_of_object, is_applied, of_alternative as of_kind, read_of_meant as meant_read, read_of_member as member_read, refused_member, selected as selected_tree, unknown_callee, used_field as field_used, value_callee as callee_of_value};
ghost use Rattle.class_checks.specs.Members.{other_faults as faults_of_other};
ghost use Rattle.class_checks.specs.Results.{first_among, form_unless, refusal};
ghost use Rattle.class_checks.specs.Scopes.{Locals};
ghost use Rattle.class_checks.specs.TypeNames.{field_form as form_of_field};
ghost use Rattle.check_fields.specs.Below.check_scopes.specs.Told.{scope_at, spec_in};
ghost use Rattle.check_names.specs.Noting.{note, noted_as};
ghost use Rattle.check_calls.specs.Selecting.{shown, shown_of, use_view};
ghost use Rattle.check_fields.specs.Below.spec_table.specs.Meanings.{IsOwned, Owns, meant_view};
ghost use Rattle.check_fields.specs.Below.spec_table.specs.Members.{item_view};
ghost use Rattle.type_forms.specs.Tree.{alt_of};
ghost use Rattle.vdm_tree.specs.ClassView.{operation_view, variable_view};

use crate::callee::{Call, Callee, of_any_arguments, operation_callee};
use crate::looked_up::value_callee;
use check_fields::field_form;
use check_fields::handed::check_scopes::{Refusals, Setting};
use check_fields::handed::spec_table::{Item, Meant, Owner};
use check_names::{form_in, has_some_called, other_faults, refuse_first};
use class_meaning::Ask;
use std::alloc::Global;
use type_forms::{Alt, Form};
use vdm_kinds::{Access, Name, NameAt, OutOfMemory, Place, SpecFault, SpecKind};
use vdm_tree::{OpDef, VarDef};

/// How a selected member is used.
#[derive(Clone, Copy)]
pub enum Use {
    /// Its value is read.
    Read,
    /// It is applied to arguments.
    Applied(Call),
}

/// What a kind of values has of a name.
#[derive(Drop)]
pub(crate) enum Selected {
    /// It is no object and no record with such a field.
    Nothing,
    /// An object that has no such member, or none that may be named: the first refusal of it.
    Refused(Option<SpecFault>),
    /// What it has, and the first refusal of it.
    Found(Callee, Option<SpecFault>),
}

fn refused(kind: SpecKind, place: Place) -> Selected
    ensures { shown result ≡ shown_of (refused_member (refusal kind place ∷ [])) }
{
    Selected::Refused(Some(SpecFault { kind, place }))
}

/// What a kind of values has.
pub(crate) fn of_alternative(
    alloc: Global,
    setting: Setting<'_>,
    way: Use,
    named: NameAt,
    alternative: &Alt,
) -> Result<Selected, OutOfMemory>
    ensures { IfOk result (λ selected. (names : Locals) → shown_of (of_kind (spec_in setting.entry) (scope_at setting.entry names) (use_view way) named.name named.place (alt_of alternative.now)) ≡ shown selected) }
{
    match alternative {
        Alt::Record { class, name } => of_record(alloc, setting, way, *class, *name, named.name),
        Alt::Object(class) => in_object_class(alloc, setting, way, *class, named),
        _ => Ok(Selected::Nothing),
    }
}

fn of_record(
    alloc: Global,
    setting: Setting<'_>,
    way: Use,
    class: Name,
    record_name: Name,
    name: Name,
) -> Result<Selected, OutOfMemory>
    ensures { IfOk result (λ selected. (names : Locals) → shown_of (field_used (spec_in setting.entry) (scope_at setting.entry names) (use_view way) (form_of_field (spec_in setting.entry) class record_name name)) ≡ shown selected) }
{
    let found = field_form(alloc, setting, class, record_name, name)?;
    match found {
        Some(form) => used_field(alloc, setting, way, form),
        None => Ok(Selected::Nothing),
    }
}

fn used_field(
    alloc: Global,
    setting: Setting<'_>,
    way: Use,
    form: Form,
) -> Result<Selected, OutOfMemory>
    ensures { IfOk result (λ selected. (names : Locals) → shown_of (field_used (spec_in setting.entry) (scope_at setting.entry names) (use_view way) (Some form)) ≡ shown selected) }
{
    match way {
        Use::Read => Ok(Selected::Found(of_any_arguments(alloc, form), None)),
        Use::Applied(call) => applied_field(alloc, setting, &form, call),
    }
}

fn applied_field(
    alloc: Global,
    setting: Setting<'_>,
    form: &Form,
    call: Call,
) -> Result<Selected, OutOfMemory>
    ensures { IfOk result (λ selected. (names : Locals) → shown_of (field_used (spec_in setting.entry) (scope_at setting.entry names) (is_applied call.head_place call.count call.place) (Some form.now)) ≡ shown selected) }
{
    looked_up_behind(alloc, setting, None, form, call)
}

// A value that is looked up in, behind what was refused first of it.
fn looked_up_behind(
    alloc: Global,
    setting: Setting<'_>,
    first: Option<SpecFault>,
    form: &Form,
    call: Call,
) -> Result<Selected, OutOfMemory>
    ensures { IfOk result (λ selected. (earlier : List SpecFault) → first_among None earlier ≡ first → form_unless earlier form.now ≡ form.now → shown_of (selected_tree (callee_of_value (spec_in setting.entry) earlier form.now call.head_place call.count call.place)) ≡ shown selected) }
{
    let mut refusals = Refusals::new();
    refuse_first(&mut refusals, first);
    let callee = value_callee(alloc, setting, &mut refusals, form, call)?;
    Ok(Selected::Found(callee, refusals.first()))
}

// What is refused of a member of another object: whether it may not be named at all, and the first refusal.
fn noted_of(
    setting: Setting<'_>,
    owner: Owner,
    access: Access,
    name_place: Place,
) -> (bool, Option<SpecFault>)
    requires { Owns (spec_in setting) owner }
    ensures { (names : Locals) → note None (faults_of_other (spec_in setting.entry) (scope_at setting.entry names) name_place owner.number access) ≡ noted_as result.1 result.0 }
{
    let mut refusals = Refusals::new();
    let spoiled = other_faults(setting, &mut refusals, owner, access, name_place);
    (spoiled, refusals.first())
}

/// What the name means in the class of an object.
pub(crate) fn in_object_class(
    alloc: Global,
    setting: Setting<'_>,
    way: Use,
    class: Name,
    named: NameAt,
) -> Result<Selected, OutOfMemory>
    ensures { IfOk result (λ selected. (names : Locals) → shown_of (in_class_of_object (spec_in setting.entry) (scope_at setting.entry names) (use_view way) named.name named.place (class_number (spec_in setting.entry) class)) ≡ shown selected) }
{
    match setting.table.number(class) {
        Some(_) => in_known_class(alloc, setting, way, class, named),
        None => Ok(refused(SpecKind::UnknownName, named.place)),
    }
}

fn in_known_class(
    alloc: Global,
    setting: Setting<'_>,
    way: Use,
    class: Name,
    named: NameAt,
) -> Result<Selected, OutOfMemory>
    ensures { IfOk result (λ selected. (names : Locals) (k : ℕ) → class_number (spec_in setting.entry) class ≡ Some k → shown_of (in_class_of_object (spec_in setting.entry) (scope_at setting.entry names) (use_view way) named.name named.place (Some k)) ≡ shown selected) }
{
    match way {
        Use::Read => {
            let meant = setting.table.meaning(class, Ask::ByName(named.name));
            read_of_meant(alloc, setting, meant, named.place)
        }
        Use::Applied(call) => {
            let meant = setting
                .table
                .meaning(class, Ask::Called(named.name, call.count));
            called_meant(alloc, setting, class, named, call, meant)
        }
    }
}

fn read_of_meant(
    alloc: Global,
    setting: Setting<'_>,
    meant: Meant<'_>,
    name_place: Place,
) -> Result<Selected, OutOfMemory>
    requires { IsOwned (spec_in setting) meant }
    ensures { IfOk result (λ selected. (names : Locals) → shown_of (meant_read (spec_in setting.entry) (scope_at setting.entry names) name_place (meant_view meant.entry)) ≡ shown selected) }
{
    match meant {
        Meant::Unknown => Ok(refused(SpecKind::UnknownName, name_place)),
        Meant::Ambiguous => Ok(refused(SpecKind::Ambiguous, name_place)),
        Meant::One(owner, item) => read_of_member(alloc, setting, owner, item, name_place),
    }
}

fn read_of_member(
    alloc: Global,
    setting: Setting<'_>,
    owner: Owner,
    item: Item<'_>,
    name_place: Place,
) -> Result<Selected, OutOfMemory>
    requires { Owns (spec_in setting) owner }
    ensures { IfOk result (λ selected. (names : Locals) → shown_of (member_read (spec_in setting.entry) (scope_at setting.entry names) name_place owner.number (item_view item.entry)) ≡ shown selected) }
{
    match item {
        Item::Variable(v) => read_of_variable(alloc, setting, owner, v, name_place),
        Item::TypeDef(_) | Item::Value(_) | Item::Function(_) | Item::Operation(_) => {
            Ok(refused(SpecKind::UnknownName, name_place))
        }
    }
}

fn read_of_variable(
    alloc: Global,
    setting: Setting<'_>,
    owner: Owner,
    variable: &VarDef,
    name_place: Place,
) -> Result<Selected, OutOfMemory>
    requires { Owns (spec_in setting) owner }
    ensures { IfOk result (λ selected. (names : Locals) → shown_of (member_read (spec_in setting.entry) (scope_at setting.entry names) name_place owner.number (of_variable (variable_view variable.now))) ≡ shown selected) }
{
    let (spoiled, first) = noted_of(setting, owner, variable.access, name_place);
    if spoiled {
        return Ok(Selected::Refused(first));
    }
    let form = form_in(alloc, setting, owner, &variable.declared)?;
    Ok(Selected::Found(of_any_arguments(alloc, form), first))
}

fn called_meant(
    alloc: Global,
    setting: Setting<'_>,
    class: Name,
    named: NameAt,
    call: Call,
    meant: Meant<'_>,
) -> Result<Selected, OutOfMemory>
    requires { IsOwned (spec_in setting) meant }
    ensures { IfOk result (λ selected. (names : Locals) (k : ℕ) → class_number (spec_in setting.entry) class ≡ Some k → shown_of (meant_called (spec_in setting.entry) (scope_at setting.entry names) named.name named.place call.head_place call.count call.place k (meant_view meant.entry)) ≡ shown selected) }
{
    match meant {
        Meant::Unknown => Ok(unknown_member(setting, class, named, call.place)),
        Meant::Ambiguous => Ok(refused(SpecKind::Ambiguous, named.place)),
        Meant::One(owner, item) => called_member(alloc, setting, owner, item, named.place, call),
    }
}

fn unknown_member(setting: Setting<'_>, class: Name, named: NameAt, place: Place) -> Selected
    ensures { (k : ℕ) → class_number (spec_in setting.entry) class ≡ Some k → shown_of (refused_member (unknown_callee (spec_in setting.entry) named.name named.place place k).refusals) ≡ shown result }
{
    if has_some_called(setting.table, class, named.name) {
        refused(SpecKind::WrongArity, place)
    } else {
        refused(SpecKind::UnknownName, named.place)
    }
}

// Functions and class values aren't reached behind an object.
fn called_member(
    alloc: Global,
    setting: Setting<'_>,
    owner: Owner,
    item: Item<'_>,
    name_place: Place,
    call: Call,
) -> Result<Selected, OutOfMemory>
    requires { Owns (spec_in setting) owner }
    ensures { IfOk result (λ selected. (names : Locals) → shown_of (member_called (spec_in setting.entry) (scope_at setting.entry names) name_place call.head_place call.count call.place owner.number (item_view item.entry)) ≡ shown selected) }
{
    match item {
        Item::Operation(o) => called_operation(alloc, setting, owner, o, name_place, call),
        Item::Variable(v) => called_variable(alloc, setting, owner, v, name_place, call),
        Item::TypeDef(_) | Item::Value(_) | Item::Function(_) => {
            Ok(refused(SpecKind::UnknownName, name_place))
        }
    }
}

fn called_operation(
    alloc: Global,
    setting: Setting<'_>,
    owner: Owner,
    operation: &OpDef,
    name_place: Place,
    call: Call,
) -> Result<Selected, OutOfMemory>
    requires { Owns (spec_in setting) owner }
    ensures { IfOk result (λ selected. (names : Locals) → shown_of (member_called (spec_in setting.entry) (scope_at setting.entry names) name_place call.head_place call.count call.place owner.number (of_operation (operation_view operation.now))) ≡ shown selected) }
{
    let (spoiled, first) = noted_of(setting, owner, operation.access, name_place);
    if spoiled {
        return Ok(Selected::Refused(first));
    }
    let callee = operation_callee(alloc, setting, false, owner, operation)?;
    Ok(Selected::Found(callee, first))
}

fn called_variable(
    alloc: Global,
    setting: Setting<'_>,
    owner: Owner,
    variable: &VarDef,
    name_place: Place,
    call: Call,
) -> Result<Selected, OutOfMemory>
    requires { Owns (spec_in setting) owner }
    ensures { IfOk result (λ selected. (names : Locals) → shown_of (member_called (spec_in setting.entry) (scope_at setting.entry names) name_place call.head_place call.count call.place owner.number (of_variable (variable_view variable.now))) ≡ shown selected) }
{
    let (spoiled, first) = noted_of(setting, owner, variable.access, name_place);
    if spoiled {
        return Ok(Selected::Refused(first));
    }
    let form = form_in(alloc, setting, owner, &variable.declared)?;
    looked_up_behind(alloc, setting, first, &form, call)
}
