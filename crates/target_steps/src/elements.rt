// Steps into an element of a sequence or a map.

ghost use Rattle.std.specs.Prelude.{◌≡◌, ◌∷◌, [], IfOk};
ghost use Rattle.vdm_kinds.specs.declared.place.Place.{Place as PlaceOf};
ghost use Rattle.abstract_syntax.specs.Statements.{element_at};
ghost use Rattle.expr_tree.specs.View.{boxed_view};
ghost use Rattle.form_meaning.specs.Forms.{FormTree};
ghost use Rattle.class_checks.specs.Callees.{key_want, looked_up};
ghost use Rattle.class_checks.specs.Results.{Checked};
ghost use Rattle.spec_checks.specs.Targets.{steps_in};
ghost use Rattle.stmt_exprs.specs.Below.check_operators.specs.Kinds.{form_of_kind};
ghost use Rattle.stmt_exprs.specs.Below.check_scopes.specs.Told.{first_in, spec_in};
ghost use Rattle.stmt_exprs.specs.Below.check_frames.specs.Meant.{spec_here};
ghost use Rattle.stmt_exprs.specs.Below.stmt_scopes.specs.Standing.{stands_here};
ghost use Rattle.stmt_exprs.specs.Below.stmt_scopes.specs.Refused.{refused};

use expr_tree::Expr;
use std::alloc::Global;
use stmt_exprs::handed::check_scopes::{Refusals, Setting};
use stmt_exprs::handed::check_shapes::{Kind, is_like};
use stmt_exprs::handed::stmt_scopes::Stands;
use stmt_exprs::{refuse_wanting, want_kind};
use type_forms::{Form, PartOf, taken};
use vdm_kinds::{OutOfMemory, Place};

/// The form of an element. That no value of the form is a sequence or a map is refused at the place.
pub(crate) fn element_behind(
    stands: Stands<'_>,
    place: Place,
    form: Form,
    index: &Box<Expr>,
    refusals: &mut Refusals,
) -> Result<Form, OutOfMemory>
    ensures { (step_place : PlaceOf) → IfOk result (λ found. (rest : FormTree → Checked) → refused (first_in refusals.old) (steps_in (spec_here stands.entry.here) (stands_here stands.entry) place form (element_at (boxed_view index.now) step_place ∷ []) rest) ≡ refused (first_in refusals.new) (rest found)) }
{
    let setting = stands.here.setting;
    want_kind(setting, Kind::SequenceOrMap, place, &form, refusals);
    refuse_wanting(stands, key_kind(setting, &form), index, refusals)?;
    looked_up(stands.here.alloc, setting, &form)
}

// A key of a map may be of any form, the place in a sequence is a number.
fn key_kind(setting: Setting<'_>, form: &Form) -> Kind
    ensures { form_of_kind result ≡ key_want (spec_in setting.entry) form.now }
{
    if is_like(setting, form, Kind::Map) || !is_like(setting, form, Kind::SequenceOrMap) {
        Kind::Any
    } else {
        Kind::Number
    }
}

// What stands there, or any form where nothing does.
fn looked_up(alloc: Global, setting: Setting<'_>, form: &Form) -> Result<Form, OutOfMemory>
    ensures { IfOk result (λ found. found ≡ looked_up (spec_in setting.entry) form.now) }
{
    if is_like(setting, form, Kind::SequenceOrMap) {
        let part = taken(alloc, PartOf::AtArgument, form)?;
        setting.opened(alloc, &part)
    } else {
        Ok(Form::any())
    }
}
