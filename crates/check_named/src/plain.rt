// Literals, words that may stand anywhere, and brackets.

ghost use Rattle.std.specs.Prelude.{◌≡◌, IfOk};
ghost use Rattle.vdm_kinds.specs.declared.place.Place.{Place as PlaceOf};
ghost use Rattle.abstract_syntax.specs.Expressions.{bracketed, empty_map, literal};
ghost use Rattle.type_tree.specs.LiteralView.{literal_view};
ghost use Rattle.expr_tree.specs.View.{view_of};
ghost use Rattle.class_checks.specs.Expressions.{check};
ghost use Rattle.check_steps.specs.Below.check_frames.specs.Meant.{boxed, next_check, scope_here, spec_here};
ghost use Rattle.expr_topics.specs.Topics.{topic_of};
ghost use Rattle.expr_topics.specs.declared.topic.Topic.TheVariants.{Plain};

use check_steps::becomes;
use check_steps::handed::check_frames::{Here, Next};
use check_steps::handed::check_shapes::{literal_form, map_with};
use expr_tree::Expr;
use type_forms::Form;
use type_tree::Literal;
use vdm_kinds::OutOfMemory;

/// What has its form at once; what stands in brackets is what the expression is.
#[tactic(auto, unfolding(class_checks::specs::Expressions::check))]
pub fn plain_next<'t>(here: Here<'_>, expr: &'t Expr) -> Result<Next<'t>, OutOfMemory>
    requires { topic_of (view_of expr.now) ≡ Plain }
    ensures { IfOk result (λ next. check (spec_here here.entry) (scope_here here.entry) (view_of expr.entry.now) ≡ next_check here.entry.setting next) }
{
    match expr {
        Expr::Bracketed(inner, _) => bracketed_next(here, inner),
        Expr::EmptyMap(_) => empty_map_next(here),
        Expr::Literal(value, _) => literal_next(here, value),
        _ => Ok(Next::Gives(Form::any())),
    }
}

fn bracketed_next<'t>(here: Here<'_>, inner: &'t Box<Expr>) -> Result<Next<'t>, OutOfMemory>
    ensures { (place : PlaceOf) → IfOk result (λ next. check (spec_here here.entry) (scope_here here.entry) (bracketed (boxed inner.entry) place) ≡ next_check here.entry.setting next) }
{
    becomes(here, inner)
}

// `{|->}`
fn empty_map_next<'t>(here: Here<'_>) -> Result<Next<'t>, OutOfMemory>
    ensures { (place : PlaceOf) → IfOk result (λ next. check (spec_here here.entry) (scope_here here.entry) (empty_map place) ≡ next_check here.entry.setting next) }
{
    let form = map_with(here.alloc, Form::any(), Form::any())?;
    Ok(Next::Gives(form))
}

fn literal_next<'t>(here: Here<'_>, value: &Literal) -> Result<Next<'t>, OutOfMemory>
    ensures { (place : PlaceOf) → IfOk result (λ next. check (spec_here here.entry) (scope_here here.entry) (literal (literal_view value.now) place) ≡ next_check here.entry.setting next) }
{
    let form = literal_form(here.alloc, value)?;
    Ok(Next::Gives(form))
}
