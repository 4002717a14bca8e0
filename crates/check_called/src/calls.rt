// Calls, whose arguments come next, or what stands before them.

ghost use Rattle.std.specs.Prelude.{◌≡◌, IfOk};
ghost use Rattle.abstract_syntax.specs.Expressions.{create, make_record};
ghost use Rattle.expr_tree.specs.View.{expr_trees, view_of, views_of};
ghost use Rattle.class_checks.specs.Expressions.{check};
ghost use Rattle.check_steps.specs.Below.check_scopes.specs.Told.{first_in, told};
ghost use Rattle.check_steps.specs.Below.check_frames.specs.Meant.{next_check, scope_here, spec_here};
ghost use Rattle.expr_topics.specs.Topics.{topic_of};
ghost use Rattle.expr_topics.specs.declared.topic.Topic.TheVariants.{Calls};

use crate::applied::applied_next;
use crate::made::record_callee;
use check_steps::handed::check_calls::{Creation, created_callee};
use check_steps::handed::check_frames::{Here, Next, Rest};
use check_steps::handed::check_scopes::Refusals;
use check_steps::{called_next, named_at};
use expr_tree::Expr;
use type_forms::Form;
use vdm_kinds::{NameAt, OutOfMemory, Place, TypeName};

/// A call: its arguments, or what stands before them.
pub fn call_next<'t>(
    here: Here<'_>,
    expr: &'t Expr,
    refusals: &mut Refusals,
) -> Result<Next<'t>, OutOfMemory>
    requires { topic_of (view_of expr.now) ≡ Calls }
    ensures { IfOk result (λ next. told (first_in refusals.old) (check (spec_here here.entry) (scope_here here.entry) (view_of expr.entry.now)) ≡ told (first_in refusals.new) (next_check here.entry.setting next)) }
{
    match expr {
        Expr::MakeRecord(type_name, fields, place) => {
            made_next(here, refusals, *type_name, fields.as_slice(), *place)
        }
        Expr::New(class, class_place, arguments, place) => {
            let class = named_at(*class, *class_place);
            created_next(here, refusals, class, arguments.as_slice(), *place)
        }
        Expr::Apply(head, arguments, place) => {
            applied_next(here, refusals, head, arguments.as_slice(), *place)
        }
        _ => Ok(Next::Gives(Form::any())),
    }
}

// `mk_T(a, b)`
fn made_next<'t>(
    here: Here<'_>,
    refusals: &mut Refusals,
    type_name: TypeName,
    fields: &'t [Expr],
    place: Place,
) -> Result<Next<'t>, OutOfMemory>
    ensures { IfOk result (λ next. told (first_in refusals.old) (check (spec_here here.entry) (scope_here here.entry) (make_record type_name (expr_trees (views_of fields.entry.now)) place)) ≡ told (first_in refusals.new) (next_check here.entry.setting next)) }
{
    let count = fields.len();
    let callee = record_callee(here, refusals, type_name, count, place)?;
    called_next(here, callee, Rest::Items(fields))
}

// `new C(a, b)`
fn created_next<'t>(
    here: Here<'_>,
    refusals: &mut Refusals,
    class: NameAt,
    arguments: &'t [Expr],
    place: Place,
) -> Result<Next<'t>, OutOfMemory>
    ensures { IfOk result (λ next. told (first_in refusals.old) (check (spec_here here.entry) (scope_here here.entry) (create class.name class.place (expr_trees (views_of arguments.entry.now)) place)) ≡ told (first_in refusals.new) (next_check here.entry.setting next)) }
{
    let creation = Creation {
        class_place: class.place,
        place,
        count: arguments.len(),
    };
    let callee = created_callee(here.alloc, here.setting, refusals, class.name, creation)?;
    called_next(here, callee, Rest::Items(arguments))
}
