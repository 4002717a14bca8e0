// What is called by a name, alone or behind a class.

ghost use Rattle.std.specs.Prelude.{◌≡◌, ℕ, [], true, Some, IfOk};
ghost use Rattle.class_meaning.specs.Classes.{class_number};
ghost use Rattle.class_checks.specs.Callees.{callee_behind_class, callee_in, function_callee as callee_of_function, looked_up_as, meant_callee as callee_meant, member_callee as callee_of_member, named_callee as callee_named, operation_callee as callee_of_operation, qualified_callee as callee_qualified, unknown_callee as callee_unknown, value_callee as callee_of_value};
ghost use Rattle.class_checks.specs.Members.{operation_faults as faults_of_operation, read_member as member_now, unseen as unseen_in};
ghost use Rattle.class_checks.specs.Scopes.{Locals as LocalForms, scope_number};
ghost use Rattle.check_fields.specs.Below.check_scopes.specs.Told.{first_in, scope_at, spec_in};
ghost use Rattle.check_calls.specs.Calling.{Calls};
ghost use Rattle.shared_names.specs.Maps.{held};
ghost use Rattle.check_fields.specs.Below.spec_table.specs.Meanings.{IsOwned, Owns, meant_view};
ghost use Rattle.check_fields.specs.Below.spec_table.specs.Members.{item_view};
ghost use Rattle.vdm_tree.specs.ClassView.{function_view, operation_view};

use crate::callee::{Call, Callee, function_callee, operation_callee, refused_callee};
use crate::looked_up::value_callee;
use check_fields::handed::check_scopes::{Locals, Refusals, Setting};
use check_fields::handed::spec_table::{Item, Meant, Owner};
use check_names::{has_some_called, is_below, operation_faults, read_member, unseen};
use class_meaning::Ask;
use std::alloc::Global;
use type_forms::Form;
use vdm_kinds::{Name, NameAt, OutOfMemory, Place, SpecKind};
use vdm_tree::{FunctionDef, OpDef};

/// A name that stands alone, called with so many arguments: what is bound hides what the class has.
pub fn named_callee(
    alloc: Global,
    setting: Setting<'_>,
    locals: &Locals,
    refusals: &mut Refusals,
    named: NameAt,
    count: usize,
    place: Place,
) -> Result<Callee, OutOfMemory>
    ensures { IfOk result (λ callee. Calls (first_in refusals.old) (first_in refusals.new) callee (callee_named (spec_in setting.entry) (scope_at setting.entry (held locals.now)) named.name named.place count place)) }
{
    let call = Call {
        head_place: named.place,
        count,
        place,
    };
    match locals.find(named.name) {
        Some(form) => local_callee(alloc, setting, refusals, form, call),
        None => callee_here(alloc, setting, refusals, named, call),
    }
}

fn local_callee(
    alloc: Global,
    setting: Setting<'_>,
    refusals: &mut Refusals,
    form: &Form,
    call: Call,
) -> Result<Callee, OutOfMemory>
    ensures { IfOk result (λ callee. Calls (first_in refusals.old) (first_in refusals.new) callee (callee_of_value (spec_in setting.entry) [] form.now call.head_place call.count call.place)) }
{
    value_callee(alloc, setting, refusals, form, call)
}

fn callee_here(
    alloc: Global,
    setting: Setting<'_>,
    refusals: &mut Refusals,
    named: NameAt,
    call: Call,
) -> Result<Callee, OutOfMemory>
    ensures { IfOk result (λ callee. (names : LocalForms) → Calls (first_in refusals.old) (first_in refusals.new) callee (callee_in (spec_in setting.entry) (scope_at setting.entry names) true named.name named.place call.head_place call.count call.place (scope_number (spec_in setting.entry) (scope_at setting.entry names)))) }
{
    match setting.scope.class {
        Some(class) => callee_in_class(alloc, setting, refusals, true, class, named, call),
        None => Ok(refused_callee(alloc, refusals, SpecKind::UnknownName, named.place)),
    }
}

/// ``C`f``
pub fn qualified_callee(
    alloc: Global,
    setting: Setting<'_>,
    refusals: &mut Refusals,
    class: Name,
    named: NameAt,
    call: Call,
) -> Result<Callee, OutOfMemory>
    ensures { IfOk result (λ callee. (names : LocalForms) → Calls (first_in refusals.old) (first_in refusals.new) callee (callee_qualified (spec_in setting.entry) (scope_at setting.entry names) class named.name named.place call.head_place call.count call.place)) }
{
    match setting.table.number(class) {
        Some(_) => callee_behind(alloc, setting, refusals, class, named, call),
        None => Ok(refused_callee(alloc, refusals, SpecKind::UnknownName, call.head_place)),
    }
}

fn callee_behind(
    alloc: Global,
    setting: Setting<'_>,
    refusals: &mut Refusals,
    class: Name,
    named: NameAt,
    call: Call,
) -> Result<Callee, OutOfMemory>
    ensures { IfOk result (λ callee. (names : LocalForms) (k : ℕ) → class_number (spec_in setting.entry) class ≡ Some k → Calls (first_in refusals.old) (first_in refusals.new) callee (callee_behind_class (spec_in setting.entry) (scope_at setting.entry names) named.name named.place call.head_place call.count call.place (class_number (spec_in setting.entry) class))) }
{
    let own = is_below(setting, class);
    callee_in_class(alloc, setting, refusals, own, class, named, call)
}

// What the name is in a class. `own`: whether the object here is of it.
fn callee_in_class(
    alloc: Global,
    setting: Setting<'_>,
    refusals: &mut Refusals,
    own: bool,
    class: Name,
    named: NameAt,
    call: Call,
) -> Result<Callee, OutOfMemory>
    ensures { IfOk result (λ callee. (names : LocalForms) → Calls (first_in refusals.old) (first_in refusals.new) callee (callee_in (spec_in setting.entry) (scope_at setting.entry names) own named.name named.place call.head_place call.count call.place (class_number (spec_in setting.entry) class))) }
{
    match setting.table.number(class) {
        Some(_) => callee_there(alloc, setting, refusals, own, class, named, call),
        None => Ok(refused_callee(alloc, refusals, SpecKind::UnknownName, named.place)),
    }
}

fn callee_there(
    alloc: Global,
    setting: Setting<'_>,
    refusals: &mut Refusals,
    own: bool,
    class: Name,
    named: NameAt,
    call: Call,
) -> Result<Callee, OutOfMemory>
    ensures { IfOk result (λ callee. (names : LocalForms) (k : ℕ) → class_number (spec_in setting.entry) class ≡ Some k → Calls (first_in refusals.old) (first_in refusals.new) callee (callee_in (spec_in setting.entry) (scope_at setting.entry names) own named.name named.place call.head_place call.count call.place (class_number (spec_in setting.entry) class))) }
{
    let meant = setting
        .table
        .meaning(class, Ask::Called(named.name, call.count));
    meant_callee(alloc, setting, refusals, own, class, named, call, meant)
}

fn meant_callee(
    alloc: Global,
    setting: Setting<'_>,
    refusals: &mut Refusals,
    own: bool,
    class: Name,
    named: NameAt,
    call: Call,
    meant: Meant<'_>,
) -> Result<Callee, OutOfMemory>
    requires { IsOwned (spec_in setting) meant }
    ensures { IfOk result (λ callee. (names : LocalForms) (k : ℕ) → class_number (spec_in setting.entry) class ≡ Some k → Calls (first_in refusals.old) (first_in refusals.new) callee (callee_meant (spec_in setting.entry) (scope_at setting.entry names) own named.name named.place call.head_place call.count call.place k (meant_view meant.entry))) }
{
    match meant {
        Meant::Unknown => Ok(unknown_callee(alloc, setting, refusals, class, named, call.place)),
        Meant::Ambiguous => Ok(refused_callee(alloc, refusals, SpecKind::Ambiguous, named.place)),
        Meant::One(owner, item) => {
            member_callee(
                alloc,
                setting,
                refusals,
                own,
                owner,
                item,
                named.place,
                call,
            )
        }
    }
}

/// A name that means nothing with so many arguments: with another number it may.
pub(crate) fn unknown_callee(
    alloc: Global,
    setting: Setting<'_>,
    refusals: &mut Refusals,
    class: Name,
    named: NameAt,
    place: Place,
) -> Callee
    ensures { (k : ℕ) → class_number (spec_in setting.entry) class ≡ Some k → Calls (first_in refusals.old) (first_in refusals.new) result (callee_unknown (spec_in setting.entry) named.name named.place place k) }
{
    if has_some_called(setting.table, class, named.name) {
        refused_callee(alloc, refusals, SpecKind::WrongArity, place)
    } else {
        refused_callee(alloc, refusals, SpecKind::UnknownName, named.place)
    }
}

fn member_callee(
    alloc: Global,
    setting: Setting<'_>,
    refusals: &mut Refusals,
    own: bool,
    owner: Owner,
    item: Item<'_>,
    name_place: Place,
    call: Call,
) -> Result<Callee, OutOfMemory>
    requires { Owns (spec_in setting) owner }
    ensures { IfOk result (λ callee. (names : LocalForms) → Calls (first_in refusals.old) (first_in refusals.new) callee (callee_of_member (spec_in setting.entry) (scope_at setting.entry names) own name_place call.head_place call.count call.place owner.number (item_view item.entry))) }
{
    match item {
        Item::Function(f) => called_function(alloc, setting, refusals, owner, f, name_place),
        Item::Operation(o) => called_operation(alloc, setting, refusals, own, owner, o, name_place),
        Item::TypeDef(_) | Item::Value(_) | Item::Variable(_) => {
            looked_up_member(alloc, setting, refusals, own, owner, item, name_place, call)
        }
    }
}

fn called_function(
    alloc: Global,
    setting: Setting<'_>,
    refusals: &mut Refusals,
    owner: Owner,
    function: &FunctionDef,
    name_place: Place,
) -> Result<Callee, OutOfMemory>
    requires { Owns (spec_in setting) owner }
    ensures { IfOk result (λ callee. (names : LocalForms) → Calls (first_in refusals.old) (first_in refusals.new) callee (callee_of_function (spec_in setting.entry) (unseen_in (spec_in setting.entry) (scope_at setting.entry names) name_place owner.number (function_view function.now).access) owner.number (function_view function.now))) }
{
    let hidden = unseen(setting, refusals, owner, function.access, name_place);
    function_callee(alloc, setting, hidden, owner, function)
}

fn called_operation(
    alloc: Global,
    setting: Setting<'_>,
    refusals: &mut Refusals,
    own: bool,
    owner: Owner,
    operation: &OpDef,
    name_place: Place,
) -> Result<Callee, OutOfMemory>
    requires { Owns (spec_in setting) owner }
    ensures { IfOk result (λ callee. (names : LocalForms) → Calls (first_in refusals.old) (first_in refusals.new) callee (callee_of_operation (spec_in setting.entry) (faults_of_operation (spec_in setting.entry) (scope_at setting.entry names) name_place own owner.number (operation_view operation.now).access) owner.number (operation_view operation.now))) }
{
    let spoiled = operation_faults(setting, refusals, own, owner, operation.access, name_place);
    operation_callee(alloc, setting, spoiled, owner, operation)
}

// The value of a variable or a class value is looked up in.
fn looked_up_member(
    alloc: Global,
    setting: Setting<'_>,
    refusals: &mut Refusals,
    own: bool,
    owner: Owner,
    item: Item<'_>,
    name_place: Place,
    call: Call,
) -> Result<Callee, OutOfMemory>
    requires { Owns (spec_in setting) owner }
    ensures { IfOk result (λ callee. (names : LocalForms) → Calls (first_in refusals.old) (first_in refusals.new) callee (looked_up_as (spec_in setting.entry) (scope_at setting.entry names) (member_now (spec_in setting.entry) (scope_at setting.entry names) name_place own owner.number (item_view item.entry)) call.head_place call.count call.place)) }
{
    let form = read_member(alloc, setting, refusals, own, owner, item, name_place)?;
    value_callee(alloc, setting, refusals, &form, call)
}
