// Tests of types and classes.

ghost use Rattle.std.specs.Prelude.{◌≡◌, [], IfOk};
ghost use Rattle.vdm_kinds.specs.declared.place.Place.{Place as PlaceOf};
ghost use Rattle.abstract_syntax.specs.Expressions.{is_of_base_class, is_of_class, is_of_named, is_of_type};
ghost use Rattle.type_tree.specs.TypeView.{type_view};
ghost use Rattle.expr_tree.specs.View.{view_of};
ghost use Rattle.class_checks.specs.Expressions.{check};
ghost use Rattle.class_checks.specs.Shapes.{of_test};
ghost use Rattle.check_steps.specs.Below.check_scopes.specs.Told.{first_in, told};
ghost use Rattle.check_steps.specs.Below.check_frames.specs.Meant.{boxed, next_check, rest_check, scope_here, spec_here};
ghost use Rattle.check_steps.specs.Below.check_frames.specs.declared.rest.Rest.TheVariants.{One};
ghost use Rattle.expr_topics.specs.Topics.{topic_of};
ghost use Rattle.expr_topics.specs.declared.topic.Topic.TheVariants.{Tests};

use check_steps::handed::check_frames::{Here, Next, Rest};
use check_steps::handed::check_scopes::Refusals;
use check_steps::handed::check_shapes::Shape;
use check_steps::handed::check_types::{class_faults, name_faults, type_faults};
use check_steps::{named_at, rest_next};
use expr_tree::Expr;
use type_forms::Form;
use type_tree::TypeExpr;
use vdm_kinds::{NameAt, OutOfMemory, Place, TypeName};

/// A test of a type or a class: its name has to be known, and then what is tested comes.
pub fn test_next<'t>(
    here: Here<'_>,
    expr: &'t Expr,
    refusals: &mut Refusals,
) -> Result<Next<'t>, OutOfMemory>
    requires { topic_of (view_of expr.now) ≡ Tests }
    ensures { IfOk result (λ next. told (first_in refusals.old) (check (spec_here here.entry) (scope_here here.entry) (view_of expr.entry.now)) ≡ told (first_in refusals.new) (next_check here.entry.setting next)) }
{
    match expr {
        Expr::IsOfType(tested, declared, _) => of_type_next(here, refusals, tested, declared),
        Expr::IsOfNamed(type_name, tested, place) => {
            of_named_next(here, refusals, *type_name, tested, *place)
        }
        Expr::IsOfClass(class, class_place, tested, _) => {
            of_class_next(here, refusals, named_at(*class, *class_place), tested)
        }
        Expr::IsOfBaseClass(class, class_place, tested, _) => {
            of_base_class_next(here, refusals, named_at(*class, *class_place), tested)
        }
        _ => Ok(Next::Gives(Form::any())),
    }
}

// `is_(e, T)`
fn of_type_next<'t>(
    here: Here<'_>,
    refusals: &mut Refusals,
    tested: &'t Box<Expr>,
    declared: &TypeExpr,
) -> Result<Next<'t>, OutOfMemory>
    ensures { (place : PlaceOf) → IfOk result (λ next. told (first_in refusals.old) (check (spec_here here.entry) (scope_here here.entry) (is_of_type (boxed tested.entry) (type_view declared.now) place)) ≡ told (first_in refusals.new) (next_check here.entry.setting next)) }
{
    type_faults(here.setting, refusals, declared);
    tested_next(here, tested)
}

// `is_T(e)`
fn of_named_next<'t>(
    here: Here<'_>,
    refusals: &mut Refusals,
    type_name: TypeName,
    tested: &'t Box<Expr>,
    place: Place,
) -> Result<Next<'t>, OutOfMemory>
    ensures { IfOk result (λ next. told (first_in refusals.old) (check (spec_here here.entry) (scope_here here.entry) (is_of_named type_name (boxed tested.entry) place)) ≡ told (first_in refusals.new) (next_check here.entry.setting next)) }
{
    name_faults(here.setting, refusals, &type_name, place);
    tested_next(here, tested)
}

// `isofclass(C, e)`
fn of_class_next<'t>(
    here: Here<'_>,
    refusals: &mut Refusals,
    class: NameAt,
    tested: &'t Box<Expr>,
) -> Result<Next<'t>, OutOfMemory>
    ensures { (place : PlaceOf) → IfOk result (λ next. told (first_in refusals.old) (check (spec_here here.entry) (scope_here here.entry) (is_of_class class.name class.place (boxed tested.entry) place)) ≡ told (first_in refusals.new) (next_check here.entry.setting next)) }
{
    class_faults(here.setting, refusals, class.name, class.place);
    tested_next(here, tested)
}

// `isofbaseclass(C, e)`
fn of_base_class_next<'t>(
    here: Here<'_>,
    refusals: &mut Refusals,
    class: NameAt,
    tested: &'t Box<Expr>,
) -> Result<Next<'t>, OutOfMemory>
    ensures { (place : PlaceOf) → IfOk result (λ next. told (first_in refusals.old) (check (spec_here here.entry) (scope_here here.entry) (is_of_base_class class.name class.place (boxed tested.entry) place)) ≡ told (first_in refusals.new) (next_check here.entry.setting next)) }
{
    class_faults(here.setting, refusals, class.name, class.place);
    tested_next(here, tested)
}

// What is tested, once the name of the type or the class is.
fn tested_next<'t>(here: Here<'_>, tested: &'t Box<Expr>) -> Result<Next<'t>, OutOfMemory>
    ensures { IfOk result (λ next. rest_check here.entry.setting (scope_here here.entry) of_test [] (One tested.entry) ≡ next_check here.entry.setting next) }
{
    rest_next(here, Shape::Test, Vec::new(here.alloc), Rest::One(tested))
}
