// What is refused, and whether it spoils what was named.

ghost use Rattle.std.specs.Prelude.{◌≡◌, ◌∷◌, [], ◌||◌, true, if◌then◌else◌, IfOk};
ghost use Rattle.class_checks.specs.Results.{refusal, refused_if, spoils, gives, named_as};
ghost use Rattle.form_meaning.specs.Forms.{any_form};
ghost use Rattle.type_tree.specs.TypeView.{type_view};
ghost use Rattle.class_checks.specs.TypeNames.{form_of};
ghost use Rattle.class_meaning.specs.Classes.{name_of_class};
ghost use Rattle.check_scopes.specs.Below.spec_table.specs.Meanings.{Owns};
ghost use Rattle.check_scopes.specs.Told.{first_in, spec_in, told};
ghost use Rattle.check_names.specs.Noting.{first_of_both, note, noted};

use check_scopes::handed::spec_table::Owner;
use check_scopes::{Refusals, Setting};
use std::alloc::Global;
use type_forms::Form;
use type_tree::TypeExpr;
use vdm_kinds::{OutOfMemory, Place, SpecFault, SpecKind};

/// Refuses what spoils a name, where it is to be refused. Gives whether it is.
pub fn spoiled_if(refusals: &mut Refusals, refused: bool, kind: SpecKind, place: Place) -> bool
    requires { spoils kind ≡ true }
    ensures { note (first_in refusals.old) (refused_if refused kind place) ≡ noted refusals.new result }
{
    refusals.refuse_if(refused, kind, place);
    refused
}

/// Refuses what was refused first elsewhere.
pub fn refuse_first(refusals: &mut Refusals, first: Option<SpecFault>)
    ensures { first_in refusals.new ≡ first_of_both (first_in refusals.old) first }
{
    match first {
        Some(refused) => refusals.refuse(refused.kind, refused.place),
        None => {}
    }
}

/// Refuses a name, which may then have any form.
pub(crate) fn refused_name(refusals: &mut Refusals, kind: SpecKind, place: Place) -> Form
    ensures { told (first_in refusals.old) (named_as (refusal kind place ∷ []) any_form) ≡ told (first_in refusals.new) (gives result) }
{
    refusals.refuse(kind, place);
    Form::any()
}

/// The form of a type in a class, or any form where the name is spoiled.
pub fn form_unless(
    alloc: Global,
    setting: Setting<'_>,
    spoiled: bool,
    owner: Owner,
    declared: &TypeExpr,
) -> Result<Form, OutOfMemory>
    requires { Owns (spec_in setting) owner }
    ensures { IfOk result (λ form. form ≡ (if spoiled then any_form else form_of (spec_in setting.entry) (name_of_class (spec_in setting.entry) owner.number) (type_view declared.now))) }
{
    if spoiled {
        Ok(Form::any())
    } else {
        form_in(alloc, setting, owner, declared)
    }
}

/// The form of a type in a class.
pub fn form_in(
    alloc: Global,
    setting: Setting<'_>,
    owner: Owner,
    declared: &TypeExpr,
) -> Result<Form, OutOfMemory>
    requires { Owns (spec_in setting) owner }
    ensures { IfOk result (λ form. form ≡ form_of (spec_in setting.entry) (name_of_class (spec_in setting.entry) owner.number) (type_view declared.now)) }
{
    setting.form_of(alloc, owner.name, declared)
}

/// Whether either spoils a name.
pub(crate) fn either(spoiled: bool, also: bool) -> bool
    ensures { result ≡ (spoiled || also) }
{
    spoiled || also
}
