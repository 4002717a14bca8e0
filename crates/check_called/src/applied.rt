// What is applied to arguments.

ghost use Rattle.std.specs.Prelude.{◌≡◌, [], length, IfOk};
ghost use Rattle.abstract_syntax.specs.Expressions.{apply, expr_place};
ghost use Rattle.expr_tree.specs.View.{expr_trees, views_of};
ghost use Rattle.class_checks.specs.Callees.{named_callee as callee_named, qualified_callee as callee_qualified};
ghost use Rattle.class_checks.specs.Expressions.{check, listed};
ghost use Rattle.check_steps.specs.Below.check_scopes.specs.Told.{first_in, told};
ghost use Rattle.check_steps.specs.Below.check_frames.specs.Meant.{boxed, called_with, next_check, scope_here, spec_here, value_applied};
ghost use Rattle.check_steps.specs.Below.check_frames.specs.declared.way.Way.TheVariants.{Applied};
ghost use Rattle.check_steps.specs.Below.check_frames.specs.declared.rest.Rest.TheVariants.{Items};
ghost use Rattle.check_called.specs.Heads.{head_applied};

use crate::head::{Head, head_of};
use crate::selections::{selected_next, selected_of_class_next};
use check_steps::handed::check_calls::{Call, named_callee, qualified_callee};
use check_steps::handed::check_frames::{Here, Next, Rest, Step, Way};
use check_steps::handed::check_scopes::Refusals;
use check_steps::{called_next, named_at, part_of, place_of};
use expr_tree::Expr;
use vdm_kinds::{Name, NameAt, OutOfMemory, Place};

/// What is applied to the arguments at the place.
pub(crate) fn applied_next<'t>(
    here: Here<'_>,
    refusals: &mut Refusals,
    applied: &'t Box<Expr>,
    arguments: &'t [Expr],
    place: Place,
) -> Result<Next<'t>, OutOfMemory>
    ensures { IfOk result (λ next. told (first_in refusals.old) (check (spec_here here.entry) (scope_here here.entry) (apply (boxed applied.entry) (expr_trees (views_of arguments.entry.now)) place)) ≡ told (first_in refusals.new) (next_check here.entry.setting next)) }
{
    head_next(here, refusals, head_of(applied), applied, arguments, place)
}

fn head_next<'t>(
    here: Here<'_>,
    refusals: &mut Refusals,
    head: Head<'t>,
    applied: &'t Box<Expr>,
    arguments: &'t [Expr],
    place: Place,
) -> Result<Next<'t>, OutOfMemory>
    ensures { IfOk result (λ next. told (first_in refusals.old) (head_applied (spec_here here.entry) (scope_here here.entry) head.entry (expr_place (boxed applied.entry)) (check (spec_here here.entry) (scope_here here.entry) (boxed applied.entry)) (length arguments.entry.now) place (λ shape. listed (spec_here here.entry) (scope_here here.entry) shape [] (expr_trees (views_of arguments.entry.now)))) ≡ told (first_in refusals.new) (next_check here.entry.setting next)) }
{
    match head {
        Head::Name(name, name_place) => {
            let named = named_at(name, name_place);
            named_next(here, refusals, named, arguments, place)
        }
        Head::Qualified(class, name, name_place, head_place) => {
            let named = named_at(name, name_place);
            let call = call_of(head_place, arguments, place);
            qualified_next(here, refusals, class, named, call, arguments)
        }
        Head::Select(target, name, name_place, dot) => {
            let way = applied_at(dot, arguments, place);
            selected_next(here, target, named_at(name, name_place), way)
        }
        Head::SelectOfClass(target, class, class_place, name, name_place, dot) => {
            let class = named_at(class, class_place);
            let way = applied_at(dot, arguments, place);
            selected_of_class_next(here, target, class, named_at(name, name_place), way)
        }
        Head::Other => value_next(here, applied, arguments, place),
    }
}

fn applied_at<'t>(head_place: Place, arguments: &'t [Expr], place: Place) -> Way<'t>
    ensures { result ≡ Applied head_place arguments.entry place }
{
    Way::Applied {
        head_place,
        arguments,
        place,
    }
}

fn call_of(head_place: Place, arguments: &[Expr], place: Place) -> Call
    ensures { result ≡ record { head_place = head_place; count = length arguments.now; place = place } }
{
    Call {
        head_place,
        count: arguments.len(),
        place,
    }
}

fn named_next<'t>(
    here: Here<'_>,
    refusals: &mut Refusals,
    named: NameAt,
    arguments: &'t [Expr],
    place: Place,
) -> Result<Next<'t>, OutOfMemory>
    ensures { IfOk result (λ next. told (first_in refusals.old) (called_with here.entry.setting (scope_here here.entry) (Items arguments.entry) (callee_named (spec_here here.entry) (scope_here here.entry) named.name named.place (length arguments.entry.now) place)) ≡ told (first_in refusals.new) (next_check here.entry.setting next)) }
{
    let Here {
        alloc,
        setting,
        locals,
    } = here;
    let count = arguments.len();
    let callee = named_callee(alloc, setting, locals, refusals, named, count, place)?;
    called_next(here, callee, Rest::Items(arguments))
}

fn qualified_next<'t>(
    here: Here<'_>,
    refusals: &mut Refusals,
    class: Name,
    named: NameAt,
    call: Call,
    arguments: &'t [Expr],
) -> Result<Next<'t>, OutOfMemory>
    ensures { IfOk result (λ next. told (first_in refusals.old) (called_with here.entry.setting (scope_here here.entry) (Items arguments.entry) (callee_qualified (spec_here here.entry) (scope_here here.entry) class named.name named.place call.head_place call.count call.place)) ≡ told (first_in refusals.new) (next_check here.entry.setting next)) }
{
    let callee = qualified_callee(here.alloc, here.setting, refusals, class, named, call)?;
    called_next(here, callee, Rest::Items(arguments))
}

fn value_next<'t>(
    here: Here<'_>,
    head: &'t Box<Expr>,
    arguments: &'t [Expr],
    place: Place,
) -> Result<Next<'t>, OutOfMemory>
    ensures { IfOk result (λ next. value_applied here.entry.setting (scope_here here.entry) (boxed head.entry) arguments.entry place ≡ next_check here.entry.setting next) }
{
    let step = Step::Head {
        head_place: place_of(head),
        arguments,
        place,
    };
    part_of(here, head, step)
}
