// Names that are read.

ghost use Rattle.std.specs.Prelude.{◌≡◌, ℕ, true, Some, option_map, if◌then◌else◌, IfOk};
ghost use Rattle.vdm_kinds.specs.declared.place.Place.{Place as PlaceOf};
ghost use Rattle.form_meaning.specs.Forms.{any_form};
ghost use Rattle.type_tree.specs.TypeView.{type_view};
ghost use Rattle.class_meaning.specs.Classes.{class_number};
ghost use Rattle.class_checks.specs.Members.{declared_form, is_below_number, old_in, old_meant as meant_before, old_member as member_before, old_unless_local as unless_local, read_behind_class, read_in, read_meant as meant_now, read_member as member_now, read_name as name_now, read_old as name_before, read_qualified as name_behind_class};
ghost use Rattle.class_checks.specs.Results.{gives};
ghost use Rattle.class_checks.specs.Scopes.{Locals as LocalForms, scope_number};
ghost use Rattle.class_meaning.specs.Members.{of_value, of_variable};
ghost use Rattle.check_scopes.specs.Told.{first_in, scope_at, spec_in, told};
ghost use Rattle.shared_names.specs.Maps.{held};
ghost use Rattle.check_scopes.specs.Below.spec_table.specs.Meanings.{IsOwned, Owns, meant_view};
ghost use Rattle.check_scopes.specs.Below.spec_table.specs.Members.{item_view};
ghost use Rattle.vdm_tree.specs.ClassView.{value_def_view, variable_view};

use crate::faults::{unseen, variable_faults};
use crate::noting::{form_unless, refused_name};
use check_scopes::handed::spec_table::{Item, Meant, Owner};
use check_scopes::{Locals, Refusals, Setting};
use class_meaning::Ask;
use expr_tree::TypeNames;
use std::alloc::Global;
use type_forms::Form;
use type_tree::TypeExpr;
use vdm_kinds::{Name, OutOfMemory, Place, SpecKind};
use vdm_tree::{ValueDef, VarDef};

/// A name that stands alone: what is bound hides what the class has.
pub fn read_name(
    alloc: Global,
    setting: Setting<'_>,
    locals: &Locals,
    refusals: &mut Refusals,
    name: Name,
    place: Place,
) -> Result<Form, OutOfMemory>
    ensures { IfOk result (λ form. told (first_in refusals.old) (name_now (spec_in setting.entry) (scope_at setting.entry (held locals.now)) place name) ≡ told (first_in refusals.new) (gives form)) }
{
    match locals.find(name) {
        Some(form) => form.copy(),
        None => read_here(alloc, setting, refusals, name, place),
    }
}

// What the name is in the class of the scope.
fn read_here(
    alloc: Global,
    setting: Setting<'_>,
    refusals: &mut Refusals,
    name: Name,
    place: Place,
) -> Result<Form, OutOfMemory>
    ensures { IfOk result (λ form. (names : LocalForms) → told (first_in refusals.old) (read_in (spec_in setting.entry) (scope_at setting.entry names) place true name (scope_number (spec_in setting.entry) (scope_at setting.entry names))) ≡ told (first_in refusals.new) (gives form)) }
{
    match setting.scope.class {
        Some(class) => read_in_class(alloc, setting, refusals, true, class, name, place),
        None => Ok(refused_name(refusals, SpecKind::UnknownName, place)),
    }
}

// What the name is in a class. `own`: whether the object here is of it.
fn read_in_class(
    alloc: Global,
    setting: Setting<'_>,
    refusals: &mut Refusals,
    own: bool,
    class: Name,
    name: Name,
    place: Place,
) -> Result<Form, OutOfMemory>
    ensures { IfOk result (λ form. (names : LocalForms) → told (first_in refusals.old) (read_in (spec_in setting.entry) (scope_at setting.entry names) place own name (class_number (spec_in setting.entry) class)) ≡ told (first_in refusals.new) (gives form)) }
{
    let meant = setting.table.meaning(class, Ask::ByName(name));
    read_meant(alloc, setting, refusals, own, meant, place)
}

fn read_meant(
    alloc: Global,
    setting: Setting<'_>,
    refusals: &mut Refusals,
    own: bool,
    meant: Meant<'_>,
    place: Place,
) -> Result<Form, OutOfMemory>
    requires { IsOwned (spec_in setting) meant }
    ensures { IfOk result (λ form. (names : LocalForms) → told (first_in refusals.old) (meant_now (spec_in setting.entry) (scope_at setting.entry names) place own (meant_view meant.entry)) ≡ told (first_in refusals.new) (gives form)) }
{
    match meant {
        Meant::Unknown => Ok(refused_name(refusals, SpecKind::UnknownName, place)),
        Meant::Ambiguous => Ok(refused_name(refusals, SpecKind::Ambiguous, place)),
        Meant::One(owner, item) => read_member(alloc, setting, refusals, own, owner, item, place),
    }
}

/// A variable or a class value; nothing else has a value.
pub fn read_member(
    alloc: Global,
    setting: Setting<'_>,
    refusals: &mut Refusals,
    own: bool,
    owner: Owner,
    item: Item<'_>,
    place: Place,
) -> Result<Form, OutOfMemory>
    requires { Owns (spec_in setting) owner }
    ensures { IfOk result (λ form. (names : LocalForms) → told (first_in refusals.old) (member_now (spec_in setting.entry) (scope_at setting.entry names) place own owner.number (item_view item.entry)) ≡ told (first_in refusals.new) (gives form)) }
{
    match item {
        Item::Variable(v) => read_variable(alloc, setting, refusals, own, owner, v, place),
        Item::Value(v) => read_value(alloc, setting, refusals, own, owner, v, place),
        Item::TypeDef(_) | Item::Function(_) | Item::Operation(_) => {
            Ok(refused_name(refusals, SpecKind::UnknownName, place))
        }
    }
}

fn read_variable(
    alloc: Global,
    setting: Setting<'_>,
    refusals: &mut Refusals,
    own: bool,
    owner: Owner,
    variable: &VarDef,
    place: Place,
) -> Result<Form, OutOfMemory>
    requires { Owns (spec_in setting) owner }
    ensures { IfOk result (λ form. (names : LocalForms) → told (first_in refusals.old) (member_now (spec_in setting.entry) (scope_at setting.entry names) place own owner.number (of_variable (variable_view variable.now))) ≡ told (first_in refusals.new) (gives form)) }
{
    let spoiled = variable_faults(setting, refusals, own, owner, variable.access, place);
    form_unless(alloc, setting, spoiled, owner, &variable.declared)
}

fn read_value(
    alloc: Global,
    setting: Setting<'_>,
    refusals: &mut Refusals,
    own: bool,
    owner: Owner,
    value: &ValueDef,
    place: Place,
) -> Result<Form, OutOfMemory>
    requires { Owns (spec_in setting) owner }
    ensures { IfOk result (λ form. (names : LocalForms) → told (first_in refusals.old) (member_now (spec_in setting.entry) (scope_at setting.entry names) place own owner.number (of_value (value_def_view value.now))) ≡ told (first_in refusals.new) (gives form)) }
{
    let spoiled = unseen(setting, refusals, owner, value.access, place);
    value_form(alloc, setting, spoiled, owner, &value.declared)
}

// A class value without a type may have any form.
#[tactic(auto, using(crate::proofs::Notes::unless_any))]
fn value_form(
    alloc: Global,
    setting: Setting<'_>,
    spoiled: bool,
    owner: Owner,
    declared: &Option<TypeExpr>,
) -> Result<Form, OutOfMemory>
    requires { Owns (spec_in setting) owner }
    ensures { IfOk result (λ form. form ≡ (if spoiled then any_form else declared_form (spec_in setting.entry) owner.number (option_map type_view declared.now))) }
{
    match declared {
        Some(declared) => form_unless(alloc, setting, spoiled, owner, declared),
        None => Ok(Form::any()),
    }
}

/// ``C`x``: `place` is the class's, where the name begins.
pub fn read_qualified(
    alloc: Global,
    setting: Setting<'_>,
    refusals: &mut Refusals,
    class: Name,
    name: Name,
    name_place: Place,
    place: Place,
) -> Result<Form, OutOfMemory>
    ensures { IfOk result (λ form. (names : LocalForms) → told (first_in refusals.old) (name_behind_class (spec_in setting.entry) (scope_at setting.entry names) class name name_place place) ≡ told (first_in refusals.new) (gives form)) }
{
    match setting.table.number(class) {
        Some(_) => read_behind(alloc, setting, refusals, class, name, name_place),
        None => Ok(refused_name(refusals, SpecKind::UnknownName, place)),
    }
}

fn read_behind(
    alloc: Global,
    setting: Setting<'_>,
    refusals: &mut Refusals,
    class: Name,
    name: Name,
    name_place: Place,
) -> Result<Form, OutOfMemory>
    ensures { IfOk result (λ form. (names : LocalForms) (place : PlaceOf) (k : ℕ) → class_number (spec_in setting.entry) class ≡ Some k → told (first_in refusals.old) (read_behind_class (spec_in setting.entry) (scope_at setting.entry names) name name_place place (class_number (spec_in setting.entry) class)) ≡ told (first_in refusals.new) (gives form)) }
{
    let own = is_below(setting, class);
    read_in_class(alloc, setting, refusals, own, class, name, name_place)
}

/// Whether the class of the scope is another or below it.
pub fn is_below(setting: Setting<'_>, class: Name) -> bool
    ensures { (names : LocalForms) (k : ℕ) → class_number (spec_in setting.entry) class ≡ Some k → result ≡ is_below_number (spec_in setting.entry) (scope_number (spec_in setting.entry) (scope_at setting.entry names)) k }
{
    match setting.scope.class {
        Some(here) => setting.table.is_kind_of(here, class),
        None => false,
    }
}

/// `x~`, of a variable, and where an operation has ended.
pub fn read_old(
    alloc: Global,
    setting: Setting<'_>,
    locals: &Locals,
    refusals: &mut Refusals,
    name: Name,
    place: Place,
) -> Result<Form, OutOfMemory>
    ensures { IfOk result (λ form. told (first_in refusals.old) (name_before (spec_in setting.entry) (scope_at setting.entry (held locals.now)) place name) ≡ told (first_in refusals.new) (gives form)) }
{
    if setting.scope.old {
        old_unless_local(alloc, setting, locals, refusals, name, place)
    } else {
        Ok(refused_name(refusals, SpecKind::UnknownName, place))
    }
}

// A bound name is no variable.
fn old_unless_local(
    alloc: Global,
    setting: Setting<'_>,
    locals: &Locals,
    refusals: &mut Refusals,
    name: Name,
    place: Place,
) -> Result<Form, OutOfMemory>
    ensures { IfOk result (λ form. told (first_in refusals.old) (unless_local (spec_in setting.entry) (scope_at setting.entry (held locals.now)) place name (held locals.now name)) ≡ told (first_in refusals.new) (gives form)) }
{
    match locals.find(name) {
        Some(_) => Ok(refused_name(refusals, SpecKind::UnknownName, place)),
        None => old_here(alloc, setting, refusals, name, place),
    }
}

fn old_here(
    alloc: Global,
    setting: Setting<'_>,
    refusals: &mut Refusals,
    name: Name,
    place: Place,
) -> Result<Form, OutOfMemory>
    ensures { IfOk result (λ form. (names : LocalForms) → told (first_in refusals.old) (old_in (spec_in setting.entry) (scope_at setting.entry names) place name (scope_number (spec_in setting.entry) (scope_at setting.entry names))) ≡ told (first_in refusals.new) (gives form)) }
{
    match setting.scope.class {
        Some(class) => old_in_class(alloc, setting, refusals, class, name, place),
        None => Ok(refused_name(refusals, SpecKind::UnknownName, place)),
    }
}

fn old_in_class(
    alloc: Global,
    setting: Setting<'_>,
    refusals: &mut Refusals,
    class: Name,
    name: Name,
    place: Place,
) -> Result<Form, OutOfMemory>
    ensures { IfOk result (λ form. (names : LocalForms) → told (first_in refusals.old) (old_in (spec_in setting.entry) (scope_at setting.entry names) place name (class_number (spec_in setting.entry) class)) ≡ told (first_in refusals.new) (gives form)) }
{
    let meant = setting.table.meaning(class, Ask::ByName(name));
    old_meant(alloc, setting, refusals, meant, place)
}

fn old_meant(
    alloc: Global,
    setting: Setting<'_>,
    refusals: &mut Refusals,
    meant: Meant<'_>,
    place: Place,
) -> Result<Form, OutOfMemory>
    requires { IsOwned (spec_in setting) meant }
    ensures { IfOk result (λ form. (names : LocalForms) → told (first_in refusals.old) (meant_before (spec_in setting.entry) (scope_at setting.entry names) place (meant_view meant.entry)) ≡ told (first_in refusals.new) (gives form)) }
{
    match meant {
        Meant::Unknown => Ok(refused_name(refusals, SpecKind::UnknownName, place)),
        Meant::Ambiguous => Ok(refused_name(refusals, SpecKind::Ambiguous, place)),
        Meant::One(owner, item) => old_member(alloc, setting, refusals, owner, item, place),
    }
}

fn old_member(
    alloc: Global,
    setting: Setting<'_>,
    refusals: &mut Refusals,
    owner: Owner,
    item: Item<'_>,
    place: Place,
) -> Result<Form, OutOfMemory>
    requires { Owns (spec_in setting) owner }
    ensures { IfOk result (λ form. (names : LocalForms) → told (first_in refusals.old) (member_before (spec_in setting.entry) (scope_at setting.entry names) place owner.number (item_view item.entry)) ≡ told (first_in refusals.new) (gives form)) }
{
    match item {
        Item::Variable(v) => read_variable(alloc, setting, refusals, true, owner, v, place),
        Item::TypeDef(_) | Item::Value(_) | Item::Function(_) | Item::Operation(_) => {
            Ok(refused_name(refusals, SpecKind::UnknownName, place))
        }
    }
}
