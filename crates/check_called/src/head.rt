// What stands before the arguments of an application.

ghost use Rattle.std.specs.Prelude.{◌≡◌, ℕ, true};
ghost use Rattle.vdm_kinds.specs.declared.place.Place.{Place as PlaceOf};
ghost use Rattle.abstract_syntax.specs.Classes.{SpecTree};
ghost use Rattle.abstract_syntax.specs.Expressions.{expr_place};
ghost use Rattle.expr_tree.specs.View.{view_of};
ghost use Rattle.class_checks.specs.Expressions.{applied};
ghost use Rattle.class_checks.specs.Results.{Checked};
ghost use Rattle.class_checks.specs.Scopes.{ScopeTree};
ghost use Rattle.class_checks.specs.Shapes.{ShapeTree};
ghost use Rattle.check_called.specs.Heads.{head_applied, is_by_name as by_name};

use expr_tree::Expr;
use vdm_kinds::{Name, Place};

/// What stands before the arguments of an application.
#[derive(Clone, Copy)]
pub(crate) enum Head<'t> {
    /// A name that stands alone.
    Name(Name, Place),
    /// ``C`f``: the class, the name, where that stands, and where the class does.
    Qualified(Name, Name, Place, Place),
    /// `e.f`: the name, where that stands, and where the `.` does.
    Select(&'t Box<Expr>, Name, Place, Place),
    /// ``e.C`f``: the class and the name, where each stands, and where the `.` does.
    SelectOfClass(&'t Box<Expr>, Name, Place, Name, Place, Place),
    /// Anything else, whose value is looked up in.
    Other,
}

/// What stands before the arguments, in a box.
pub(crate) fn head_of<'t>(boxed: &'t Box<Expr>) -> Head<'t>
    ensures { (spec : SpecTree) (scope : ScopeTree) (whole : Checked) (n : ℕ) (place : PlaceOf) (arguments : ShapeTree → Checked) → applied spec scope (view_of boxed.entry.now.value) whole n place arguments ≡ head_applied spec scope result (expr_place (view_of boxed.entry.now.value)) whole n place arguments }
{
    expr_head(boxed)
}

fn expr_head<'t>(expr: &'t Expr) -> Head<'t>
    ensures { (spec : SpecTree) (scope : ScopeTree) (whole : Checked) (n : ℕ) (place : PlaceOf) (arguments : ShapeTree → Checked) → applied spec scope (view_of expr.entry.now) whole n place arguments ≡ head_applied spec scope result (expr_place (view_of expr.entry.now)) whole n place arguments }
{
    if is_by_name(expr) {
        named_head(expr)
    } else {
        Head::Other
    }
}

// Whether it is found by its name, and not by its value.
fn is_by_name(expr: &Expr) -> bool
    ensures { result ≡ by_name (view_of expr.now) }
{
    match expr {
        Expr::Name(_, _)
        | Expr::Qualified(_, _, _, _)
        | Expr::Select(_, _, _, _)
        | Expr::SelectOfClass(_, _, _, _, _, _) => true,
        _ => false,
    }
}

#[tactic(auto, unfolding(class_checks::specs::Expressions::applied))]
fn named_head<'t>(expr: &'t Expr) -> Head<'t>
    requires { by_name (view_of expr.now) ≡ true }
    ensures { (spec : SpecTree) (scope : ScopeTree) (whole : Checked) (n : ℕ) (place : PlaceOf) (arguments : ShapeTree → Checked) → applied spec scope (view_of expr.entry.now) whole n place arguments ≡ head_applied spec scope result (expr_place (view_of expr.entry.now)) whole n place arguments }
{
    match expr {
        Expr::Name(name, place) => Head::Name(*name, *place),
        Expr::Qualified(class, name, name_place, place) => {
            Head::Qualified(*class, *name, *name_place, *place)
        }
        Expr::Select(target, name, name_place, place) => {
            Head::Select(target, *name, *name_place, *place)
        }
        Expr::SelectOfClass(target, class, class_place, name, name_place, place) => {
            Head::SelectOfClass(target, *class, *class_place, *name, *name_place, *place)
        }
        _ => Head::Other,
    }
}
