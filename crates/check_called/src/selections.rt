// Members of what stands before them.

ghost use Rattle.std.specs.Prelude.{◌≡◌, IfOk};
ghost use Rattle.vdm_kinds.specs.declared.place.Place.{Place as PlaceOf};
ghost use Rattle.abstract_syntax.specs.Expressions.{expr_place, select, select_of_class};
ghost use Rattle.expr_tree.specs.View.{view_of};
ghost use Rattle.class_checks.specs.Expressions.{check};
ghost use Rattle.class_checks.specs.Results.{after};
ghost use Rattle.check_steps.specs.Below.check_frames.specs.Meant.{boxed, next_check, scope_here, spec_here, target_check, target_of_class_check};
ghost use Rattle.expr_topics.specs.Topics.{topic_of};
ghost use Rattle.expr_topics.specs.declared.topic.Topic.TheVariants.{Selections};

use check_steps::handed::check_frames::{Here, Next, Step, Way};
use check_steps::{named_at, part_of, place_of};
use expr_tree::Expr;
use type_forms::Form;
use vdm_kinds::{NameAt, OutOfMemory};

/// A selection: what stands before it.
pub fn selection_next<'t>(here: Here<'_>, expr: &'t Expr) -> Result<Next<'t>, OutOfMemory>
    requires { topic_of (view_of expr.now) ≡ Selections }
    ensures { IfOk result (λ next. check (spec_here here.entry) (scope_here here.entry) (view_of expr.entry.now) ≡ next_check here.entry.setting next) }
{
    match expr {
        Expr::Select(target, name, name_place, _) => {
            read_next(here, target, named_at(*name, *name_place))
        }
        Expr::SelectOfClass(target, class, class_place, name, name_place, _) => {
            let class = named_at(*class, *class_place);
            read_of_class_next(here, target, class, named_at(*name, *name_place))
        }
        _ => Ok(Next::Gives(Form::any())),
    }
}

// `e.x`
fn read_next<'t>(
    here: Here<'_>,
    target: &'t Box<Expr>,
    named: NameAt,
) -> Result<Next<'t>, OutOfMemory>
    ensures { (place : PlaceOf) → IfOk result (λ next. check (spec_here here.entry) (scope_here here.entry) (select (boxed target.entry) named.name named.place place) ≡ next_check here.entry.setting next) }
{
    selected_next(here, target, named, Way::Read)
}

// ``e.C`x``
fn read_of_class_next<'t>(
    here: Here<'_>,
    target: &'t Box<Expr>,
    class: NameAt,
    named: NameAt,
) -> Result<Next<'t>, OutOfMemory>
    ensures { (place : PlaceOf) → IfOk result (λ next. check (spec_here here.entry) (scope_here here.entry) (select_of_class (boxed target.entry) class.name class.place named.name named.place place) ≡ next_check here.entry.setting next) }
{
    selected_of_class_next(here, target, class, named, Way::Read)
}

/// What a member is selected of.
pub(crate) fn selected_next<'t>(
    here: Here<'_>,
    target: &'t Box<Expr>,
    named: NameAt,
    way: Way<'t>,
) -> Result<Next<'t>, OutOfMemory>
    ensures { IfOk result (λ next. after (check (spec_here here.entry) (scope_here here.entry) (boxed target.entry)) (target_check here.entry.setting (scope_here here.entry) (expr_place (boxed target.entry)) named.name named.place way.entry) ≡ next_check here.entry.setting next) }
{
    let step = Step::Target {
        target_place: place_of(target),
        named,
        way,
    };
    part_of(here, target, step)
}

/// ... with the class before its name.
pub(crate) fn selected_of_class_next<'t>(
    here: Here<'_>,
    target: &'t Box<Expr>,
    class: NameAt,
    named: NameAt,
    way: Way<'t>,
) -> Result<Next<'t>, OutOfMemory>
    ensures { IfOk result (λ next. after (check (spec_here here.entry) (scope_here here.entry) (boxed target.entry)) (target_of_class_check here.entry.setting (scope_here here.entry) (expr_place (boxed target.entry)) class.name class.place named.name named.place way.entry) ≡ next_check here.entry.setting next) }
{
    let step = Step::TargetOfClass {
        target_place: place_of(target),
        class,
        named,
        way,
    };
    part_of(here, target, step)
}
