// Types, values and functions: the first form that is not built.

ghost use Rattle.std.specs.Prelude.{◌≡◌, map, option_map};
ghost use Rattle.text_phases.specs.Built.{unbuilt_in_invariant, unbuilt_in_types, unbuilt_in_values, unbuilt_in_each_pattern, unbuilt_if_written, unbuilt_if_given, unbuilt_in_function, unbuilt_in_functions};
ghost use Rattle.expr_tree.specs.View.{boxed_view, pattern_views};
ghost use Rattle.expr_tree.specs.TypeDefView.{invariant_view, type_def_view};
ghost use Rattle.vdm_tree.specs.ClassView.{value_def_view, function_view, body_view};

use built_exprs::{unbuilt_in_expr, unbuilt_in_pattern};
use vdm_kinds::Place;
use vdm_tree::{Body, Expr, FunctionDef, Pattern, TypeDef, TypeInvariant, ValueDef};

/// Where the first form of an invariant stands that is not built.
fn unbuilt_in_invariant(invariant: &Option<TypeInvariant>) -> Option<Place>
    ensures { result ≡ unbuilt_in_invariant (option_map invariant_view invariant.now) }
{
    match invariant {
        Some(invariant) => {
            unbuilt_in_pattern(&invariant.pattern).or(unbuilt_in_expr(&invariant.condition))
        }
        None => None,
    }
}

/// Where the first form stands that is not built among types.
pub(crate) fn unbuilt_in_types(types: &[TypeDef]) -> Option<Place>
    ensures { result ≡ unbuilt_in_types (map type_def_view types.now) }
{
    for defined in types {
        if let Some(place) = unbuilt_in_invariant(&defined.invariant) {
            return Some(place);
        }
    }
    None
}

/// Where the first form stands that is not built among values of a class.
pub(crate) fn unbuilt_in_values(values: &[ValueDef]) -> Option<Place>
    ensures { result ≡ unbuilt_in_values (map value_def_view values.now) }
{
    for defined in values {
        if let Some(place) = unbuilt_in_expr(&defined.value) {
            return Some(place);
        }
    }
    None
}

// ---- functions

/// Where the first form stands that is not built among patterns of parameters.
pub(crate) fn unbuilt_in_each_pattern(patterns: &[Pattern]) -> Option<Place>
    ensures { result ≡ unbuilt_in_each_pattern (pattern_views patterns.now) }
{
    for pattern in patterns {
        if let Some(place) = unbuilt_in_pattern(pattern) {
            return Some(place);
        }
    }
    None
}

fn unbuilt_if_written(body: &Body<Box<Expr>>) -> Option<Place>
    ensures { result ≡ unbuilt_if_written (body_view boxed_view body.now) }
{
    match body {
        Body::Written(body) => unbuilt_in_expr(body),
        Body::NotYetSpecified | Body::SubclassResponsibility => None,
    }
}

/// Where the first form stands that is not built of a part that may be left out.
pub(crate) fn unbuilt_if_given(part: &Option<Box<Expr>>) -> Option<Place>
    ensures { result ≡ unbuilt_if_given (option_map boxed_view part.now) }
{
    match part {
        Some(part) => unbuilt_in_expr(part),
        None => None,
    }
}

fn unbuilt_in_function(function: &FunctionDef) -> Option<Place>
    ensures { result ≡ unbuilt_in_function (function_view function.now) }
{
    unbuilt_in_each_pattern(&function.patterns)
        .or(unbuilt_if_written(&function.body))
        .or(unbuilt_if_given(&function.pre))
        .or(unbuilt_if_given(&function.post))
}

/// Where the first form stands that is not built among functions.
pub(crate) fn unbuilt_in_functions(functions: &[FunctionDef]) -> Option<Place>
    ensures { result ≡ unbuilt_in_functions (map function_view functions.now) }
{
    for function in functions {
        if let Some(place) = unbuilt_in_function(function) {
            return Some(place);
        }
    }
    None
}
