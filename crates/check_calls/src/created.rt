// New objects.

ghost use Rattle.std.specs.Prelude.{◌≡◌, ◌||◌, not, nat_eq, None, Some, option_map, if◌then◌else◌, IfOk};
ghost use Rattle.class_meaning.specs.Classes.{class_at, class_number};
ghost use Rattle.class_meaning.specs.Members.{of_operation};
ghost use Rattle.class_checks.specs.Callees.{by_class, by_constructor as by_own, by_number, created_callee as callee_created, has_constructor as class_has_constructor};
ghost use Rattle.class_checks.specs.Scopes.{Locals};
ghost use Rattle.form_meaning.specs.Forms.{any_form, object_alt, only};
ghost use Rattle.check_fields.specs.Below.check_scopes.specs.Told.{first_in, scope_at, spec_in};
ghost use Rattle.check_calls.specs.Calling.{Calls, without_own};
ghost use Rattle.check_fields.specs.Below.spec_table.specs.Meanings.{Owns};
ghost use Rattle.check_fields.specs.Below.spec_table.specs.Members.{item_view};
ghost use Rattle.vdm_tree.specs.ClassView.{class_view, operation_view};

use crate::callee::{Callee, of_any_arguments, operation_wants, refused_callee};
use check_fields::handed::check_scopes::{Refusals, Setting};
use check_fields::handed::spec_table::{Item, Owner};
use check_names::{has_constructor, may_not_create, spoiled_if, unseen};
use class_meaning::Ask;
use std::alloc::Global;
use type_forms::{Alt, Form};
use vdm_kinds::{Name, OutOfMemory, Place, SpecKind};
use vdm_tree::{ClassDef, OpDef};

/// Where an object is made, and with how many arguments.
#[derive(Clone, Copy)]
pub struct Creation {
    pub class_place: Place,
    pub place: Place,
    pub count: usize,
}

/// A constructor of the class itself with so many parameters; without one, no arguments where the class has none at all.
pub fn created_callee(
    alloc: Global,
    setting: Setting<'_>,
    refusals: &mut Refusals,
    class: Name,
    at: Creation,
) -> Result<Callee, OutOfMemory>
    ensures { IfOk result (λ callee. (names : Locals) → Calls (first_in refusals.old) (first_in refusals.new) callee (callee_created (spec_in setting.entry) (scope_at setting.entry names) at.class_place at.place at.count class)) }
{
    match setting.table.number(class) {
        Some(number) => {
            let owner = owner_of(setting, class, number);
            created_of(alloc, setting, refusals, owner, at)
        }
        None => Ok(unknown_class(alloc, setting, refusals, at)),
    }
}

fn owner_of(setting: Setting<'_>, class: Name, number: usize) -> Owner
    requires { class_number (spec_in setting) class ≡ Some number }
    ensures owns { Owns (spec_in setting.entry) result }
    ensures number { result.number ≡ number }
{
    Owner {
        number,
        name: class,
    }
}

fn unknown_class(
    alloc: Global,
    setting: Setting<'_>,
    refusals: &mut Refusals,
    at: Creation,
) -> Callee
    ensures { (names : Locals) → Calls (first_in refusals.old) (first_in refusals.new) result (by_number (spec_in setting.entry) (scope_at setting.entry names) at.class_place at.place at.count None) }
{
    may_not_create(setting, refusals, at.place);
    refused_callee(alloc, refusals, SpecKind::UnknownName, at.class_place)
}

fn created_of(
    alloc: Global,
    setting: Setting<'_>,
    refusals: &mut Refusals,
    owner: Owner,
    at: Creation,
) -> Result<Callee, OutOfMemory>
    requires { Owns (spec_in setting) owner }
    ensures { IfOk result (λ callee. (names : Locals) → Calls (first_in refusals.old) (first_in refusals.new) callee (by_class (spec_in setting.entry) (scope_at setting.entry names) at.class_place at.place at.count owner.number (class_at (spec_in setting.entry) owner.number))) }
{
    let class = setting.table.class(owner.name);
    let own = setting
        .table
        .member(owner.name, Ask::Called(class.name, at.count));
    by_constructor(alloc, setting, refusals, owner, class, own, at)
}

fn by_constructor(
    alloc: Global,
    setting: Setting<'_>,
    refusals: &mut Refusals,
    owner: Owner,
    class: &ClassDef,
    own: Option<Item<'_>>,
    at: Creation,
) -> Result<Callee, OutOfMemory>
    requires { Owns (spec_in setting) owner }
    ensures { IfOk result (λ callee. (names : Locals) → Calls (first_in refusals.old) (first_in refusals.new) callee (by_own (spec_in setting.entry) (scope_at setting.entry names) at.class_place at.place at.count owner.number (class_view class.now) (option_map item_view own.entry))) }
{
    match own {
        Some(item) => by_member(alloc, setting, refusals, owner, class, item, at),
        None => by_none(alloc, setting, refusals, class, at),
    }
}

fn by_member(
    alloc: Global,
    setting: Setting<'_>,
    refusals: &mut Refusals,
    owner: Owner,
    class: &ClassDef,
    item: Item<'_>,
    at: Creation,
) -> Result<Callee, OutOfMemory>
    requires { Owns (spec_in setting) owner }
    ensures { IfOk result (λ callee. (names : Locals) → Calls (first_in refusals.old) (first_in refusals.new) callee (by_own (spec_in setting.entry) (scope_at setting.entry names) at.class_place at.place at.count owner.number (class_view class.now) (Some (item_view item.entry)))) }
{
    match item {
        Item::Operation(o) => by_operation(alloc, setting, refusals, owner, class, o, at),
        Item::TypeDef(_) | Item::Value(_) | Item::Variable(_) | Item::Function(_) => {
            by_none(alloc, setting, refusals, class, at)
        }
    }
}

// The constructor is named where the class is.
fn by_operation(
    alloc: Global,
    setting: Setting<'_>,
    refusals: &mut Refusals,
    owner: Owner,
    class: &ClassDef,
    operation: &OpDef,
    at: Creation,
) -> Result<Callee, OutOfMemory>
    requires { Owns (spec_in setting) owner }
    ensures { IfOk result (λ callee. (names : Locals) → Calls (first_in refusals.old) (first_in refusals.new) callee (by_own (spec_in setting.entry) (scope_at setting.entry names) at.class_place at.place at.count owner.number (class_view class.now) (Some (of_operation (operation_view operation.now))))) }
{
    may_not_create(setting, refusals, at.place);
    let hidden = unseen(setting, refusals, owner, operation.access, at.class_place);
    let wants = operation_wants(alloc, setting, owner, operation.parameters.as_slice())?;
    let result = object_unless(alloc, hidden, class.name)?;
    Ok(Callee { wants, result })
}

// Without a constructor.
fn by_none(
    alloc: Global,
    setting: Setting<'_>,
    refusals: &mut Refusals,
    class: &ClassDef,
    at: Creation,
) -> Result<Callee, OutOfMemory>
    ensures { IfOk result (λ callee. (names : Locals) → Calls (first_in refusals.old) (first_in refusals.new) callee (without_own (spec_in setting.entry) (scope_at setting.entry names) at.class_place at.place at.count (class_view class.now))) }
{
    may_not_create(setting, refusals, at.place);
    let unfit = is_unfit(class, at.count);
    let wrong = spoiled_if(refusals, unfit, SpecKind::WrongArity, at.place);
    let result = object_unless(alloc, wrong, class.name)?;
    Ok(of_any_arguments(alloc, result))
}

// An object of the class, or any value where the call is refused.
fn object_unless(alloc: Global, spoiled: bool, class: Name) -> Result<Form, OutOfMemory>
    ensures { IfOk result (λ form. form ≡ (if spoiled then any_form else only (object_alt class))) }
{
    if spoiled {
        Ok(Form::any())
    } else {
        Form::only(alloc, Alt::Object(class))
    }
}

// Whether a class has a constructor, or gets arguments for none.
fn is_unfit(class: &ClassDef, count: usize) -> bool
    ensures { result ≡ (class_has_constructor (class_view class.now) || not (nat_eq count 0)) }
{
    has_constructor(class) || count != 0
}
