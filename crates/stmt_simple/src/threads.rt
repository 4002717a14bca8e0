// Threads that are started.

ghost use Rattle.std.specs.Prelude.{◌≡◌, OnOk};
ghost use Rattle.vdm_kinds.specs.declared.place.Place.{Place as PlaceOf};
ghost use Rattle.abstract_syntax.specs.Statements.{start_thread, start_threads};
ghost use Rattle.expr_tree.specs.View.{boxed_view};
ghost use Rattle.class_checks.specs.Shapes.{any_or_some, some_alt};
ghost use Rattle.spec_checks.specs.Statements.{check_stmt, is_object};
ghost use Rattle.class_checks.specs.Results.{first_among};
ghost use Rattle.type_forms.specs.Tree.{alt_of, alt_trees};
ghost use Rattle.stmt_targets.specs.Below.check_scopes.specs.Told.{first_in};
ghost use Rattle.stmt_targets.specs.Below.check_frames.specs.Meant.{spec_here};
ghost use Rattle.stmt_targets.specs.Below.stmt_scopes.specs.Standing.{stands_here};

use expr_tree::Expr;
use stmt_targets::handed::check_scopes::Refusals;
use stmt_targets::handed::check_shapes::Kind;
use stmt_targets::handed::check_steps::place_of;
use stmt_targets::handed::stmt_exprs::refuse_wanting;
use stmt_targets::handed::stmt_scopes::Stands;
use stmt_targets::handed::type_check::form_here;
use type_forms::{Alt, Form, Node};
use vdm_kinds::{OutOfMemory, SpecKind};

/// The start of the thread of an object.
pub(crate) fn refuse_start(
    stands: Stands<'_>,
    object: &Box<Expr>,
    refusals: &mut Refusals,
) -> Result<(), OutOfMemory>
    ensures { (place : PlaceOf) → OnOk result (first_in refusals.new ≡ first_among (first_in refusals.old) (check_stmt (spec_here stands.entry.here) (stands_here stands.entry) (start_thread (boxed_view object.now) place)).refusals) }
{
    let form = form_here(stands.here, object, refusals)?;
    let fits = may_be_object(&form);
    refusals.refuse_if(!fits, SpecKind::NoCommonValue, place_of(object));
    Ok(())
}

/// The start of the threads of several objects, which stand in a set.
pub(crate) fn refuse_start_list(
    stands: Stands<'_>,
    objects: &Box<Expr>,
    refusals: &mut Refusals,
) -> Result<(), OutOfMemory>
    ensures { (place : PlaceOf) → OnOk result (first_in refusals.new ≡ first_among (first_in refusals.old) (check_stmt (spec_here stands.entry.here) (stands_here stands.entry) (start_threads (boxed_view objects.now) place)).refusals) }
{
    refuse_wanting(stands, Kind::Set, objects, refusals)
}

// Whether some value of a form may be an object.
fn may_be_object(form: &Form) -> bool
    ensures { result ≡ any_or_some is_object form.now }
{
    match form.node() {
        Node::Any => true,
        Node::Nothing => false,
        Node::OneOf(alternatives) => some_object(alternatives.as_slice()),
    }
}

fn some_object(alternatives: &[Alt]) -> bool
    ensures { result ≡ some_alt is_object (alt_trees alternatives.now) }
{
    for alternative in alternatives {
        if is_object(alternative) {
            return true;
        }
    }
    false
}

fn is_object(alternative: &Alt) -> bool
    ensures { result ≡ is_object (alt_of alternative.now) }
{
    matches!(alternative, Alt::Object(_))
}
