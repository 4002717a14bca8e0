// What is evaluated of statements and definitions: the first form that is not built. Objects may be made in all of it but the initial
// value of a static variable, and an invariant of objects.

ghost use Rattle.std.specs.Prelude.{◌≡◌, true, false, map, option_map};
ghost use Rattle.text_phases.specs.Built.{unbuilt_in_expr, unbuilt_in_call, unbuilt_in_initial, unbuilt_in_defined, unbuilt_in_bind, unbuilt_in_pattern, unbuilt_in_patterns};
ghost use Rattle.expr_tree.specs.View.{view_of, boxed_view, defined_view, defined_trees, bind_view, pattern_view, pattern_views, pattern_trees};

use crate::exprs::{in_bind, in_definitions, in_expr, in_pattern, in_patterns};
use expr_tree::{Bind, Defined, Expr, Pattern};
use vdm_kinds::Place;

/// Where the first form of an expression stands that is not built.
pub fn unbuilt_in_expr(expr: &Expr) -> Option<Place>
    ensures { result ≡ unbuilt_in_expr true (view_of expr.now) }
{
    in_expr(true, expr)
}

/// Where the first form of what a statement calls stands that is not built.
pub fn unbuilt_in_call(application: &Expr) -> Option<Place>
    ensures { result ≡ unbuilt_in_call (view_of application.now) }
{
    match application {
        Expr::Apply(_, _, _) => unbuilt_in_expr(application),
        _ => Some(application.place()),
    }
}

/// Where the first form of a variable's initial value stands that is not built: that of a static one makes no object.
pub fn unbuilt_in_initial(is_static: bool, initial: &Option<Box<Expr>>) -> Option<Place>
    ensures { result ≡ unbuilt_in_initial is_static (option_map boxed_view initial.now) }
{
    match initial {
        Some(value) => in_expr(!is_static, value),
        None => None,
    }
}

/// Where the first form of an invariant of objects stands that is not built: it makes no object.
pub fn unbuilt_in_object_invariant(condition: &Expr) -> Option<Place>
    ensures { result ≡ unbuilt_in_expr false (view_of condition.now) }
{
    in_expr(false, condition)
}

/// Where the first form stands that is not built among definitions of a `let`.
pub fn unbuilt_in_definitions(definitions: &[Defined]) -> Option<Place>
    ensures { result ≡ unbuilt_in_defined true (defined_trees (map defined_view definitions.now)) }
{
    in_definitions(true, definitions)
}

/// Where the first form of a bind stands that is not built.
pub fn unbuilt_in_bind(bind: &Bind) -> Option<Place>
    ensures { result ≡ unbuilt_in_bind true (bind_view bind.now) }
{
    in_bind(true, bind)
}

/// Where the first form of a pattern stands that is not built.
pub fn unbuilt_in_pattern(pattern: &Pattern) -> Option<Place>
    ensures { result ≡ unbuilt_in_pattern true (pattern_view pattern.now) }
{
    in_pattern(true, pattern)
}

/// Where the first form stands that is not built among patterns.
pub fn unbuilt_in_patterns(patterns: &[Pattern]) -> Option<Place>
    ensures { result ≡ unbuilt_in_patterns true (pattern_trees (pattern_views patterns.now)) }
{
    in_patterns(true, patterns)
}
