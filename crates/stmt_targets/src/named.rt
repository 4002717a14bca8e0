// What the name of a target stands for.

ghost use Rattle.std.specs.Prelude.{◌≡◌, IfOk};
ghost use Rattle.vdm_tree.specs.ClassView.{variable_view};
ghost use Rattle.class_meaning.specs.Members.{of_variable};
ghost use Rattle.class_checks.specs.Members.{read_member as read_member_of};
ghost use Rattle.class_checks.specs.Results.{gives, refusing};
ghost use Rattle.class_checks.specs.Scopes.{Locals as LocalForms};
ghost use Rattle.target_steps.specs.Below.spec_table.specs.Meanings.{Owns};
ghost use Rattle.target_steps.specs.Below.check_scopes.specs.Told.{first_in, scope_at, spec_in, told};
ghost use Rattle.target_steps.specs.Below.check_scopes.specs.declared.setting.Setting.{Setting as AnySetting};
ghost use Rattle.stmt_targets.specs.Naming.{IsOwned, owned_view, written_as};

use crate::owned::{Owned, owner_of};
use std::alloc::Global;
use target_steps::handed::check_names::read_member;
use target_steps::handed::check_scopes::{Refusals, Setting};
use target_steps::handed::spec_table::{Item, Owner};
use type_forms::Form;
use vdm_kinds::{OutOfMemory, Place, SpecKind};
use vdm_tree::VarDef;

/// What the name of a target stands for.
#[derive(Clone, Copy)]
pub(crate) enum Named<'t> {
    /// Nothing that may be assigned: why, and where.
    Refused(SpecKind, Place),
    /// A local that was declared, of this form.
    Local(&'t Form),
    /// A variable of a class.
    Variable(Member<'t>),
}

/// A variable of a class, at the place of its name. `own`: whether the object here is of the class that was named.
#[derive(Clone, Copy)]
pub(crate) struct Member<'t> {
    pub(crate) place: Place,
    pub(crate) own: bool,
    pub(crate) owner: Owner,
    pub(crate) variable: &'t VarDef,
}

/// Whose variable that is.
pub(crate) fn owned_by(named: Named<'_>) -> Owned
    ensures { (setting : AnySetting) (names : LocalForms) → owned_view result ≡ (written_as setting names named.entry).owned }
{
    match named {
        Named::Refused(_, _) => Owned::Nothing,
        Named::Local(_) => Owned::Local,
        Named::Variable(member) => owner_of(member.owner.number, member.variable.access),
    }
}

/// The form of the variable; what is refused of it is noted.
pub(crate) fn written_form(
    alloc: Global,
    setting: Setting<'_>,
    named: Named<'_>,
    refusals: &mut Refusals,
) -> Result<Form, OutOfMemory>
    requires { IsOwned (spec_in setting) named }
    ensures { IfOk result (λ form. (names : LocalForms) → told (first_in refusals.old) (refusing (written_as setting.entry names named.entry).refusals (gives (written_as setting.entry names named.entry).form)) ≡ told (first_in refusals.new) (gives form)) }
{
    match named {
        Named::Refused(kind, place) => {
            refusals.refuse(kind, place);
            Ok(Form::any())
        }
        Named::Local(form) => form.copy(),
        Named::Variable(member) => member_form(alloc, setting, member, refusals),
    }
}

// A variable that is written is refused where one that is read is.
fn member_form(
    alloc: Global,
    setting: Setting<'_>,
    member: Member<'_>,
    refusals: &mut Refusals,
) -> Result<Form, OutOfMemory>
    requires { Owns (spec_in setting) member.owner }
    ensures { IfOk result (λ form. (names : LocalForms) → told (first_in refusals.old) (read_member_of (spec_in setting.entry) (scope_at setting.entry names) member.entry.place member.entry.own member.entry.owner.number (of_variable (variable_view member.entry.variable.now))) ≡ told (first_in refusals.new) (gives form)) }
{
    let Member {
        place,
        own,
        owner,
        variable,
    } = member;
    read_member(
        alloc,
        setting,
        refusals,
        own,
        owner,
        Item::Variable(variable),
        place,
    )
}
