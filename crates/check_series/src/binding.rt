// Binds and definitions, one behind the other.

ghost use Rattle.std.specs.Prelude.{◌≡◌, IfOk, map};
ghost use Rattle.expr_tree.specs.View.{bind_trees, bind_view, defined_trees, defined_view};
ghost use Rattle.class_checks.specs.Expressions.{defined_in};
ghost use Rattle.check_steps.specs.Below.check_patterns.specs.Shown.{local_view, patterns_of};
ghost use Rattle.check_steps.specs.Below.check_frames.specs.Meant.{bind_check, binds_check, boxed, inside_of, let_body, let_check, next_check, scope_here, spec_here};

use check_steps::handed::check_frames::{BindStep, Binds, Here, Inside, Next, Step};
use check_steps::handed::check_patterns::{LocalForm, Patterns, inside as locals_inside};
use check_steps::{becomes, inside_next, part_of, place_of};
use expr_tree::{Defined, Expr};
use vdm_kinds::OutOfMemory;

/// The next of the binds; with none left, what stands inside all of them.
pub fn binds_next<'t>(here: Here<'_>, rest: Binds<'t>) -> Result<Next<'t>, OutOfMemory>
    ensures { IfOk result (λ next. binds_check here.entry.setting (scope_here here.entry) rest.entry ≡ next_check here.entry.setting next) }
{
    let Binds {
        found,
        more,
        inside,
    } = rest;
    match more {
        [] => inside_all_next(here, found, inside),
        [bind, more @ ..] => {
            let rest = Binds {
                found,
                more,
                inside,
            };
            set_next(here, Patterns::Many(&bind.patterns), &bind.set, rest)
        }
    }
}

fn inside_all_next<'t>(
    here: Here<'_>,
    found: Vec<LocalForm>,
    within: Inside<'t>,
) -> Result<Next<'t>, OutOfMemory>
    ensures { IfOk result (λ next. inside_of here.entry.setting (scope_here here.entry) within.entry (map local_view found.items) ≡ next_check here.entry.setting next) }
{
    let locals = locals_inside(here.alloc, here.locals, found.as_slice())?;
    let here = Here {
        locals: &locals,
        ..here
    };
    inside_next(here, within)
}

/// The set of a bind, and the binds that follow.
pub fn set_next<'t>(
    here: Here<'_>,
    patterns: Patterns<'t>,
    set: &'t Box<Expr>,
    rest: Binds<'t>,
) -> Result<Next<'t>, OutOfMemory>
    ensures { IfOk result (λ next. bind_check here.entry.setting (scope_here here.entry) (map local_view rest.entry.found.items) (patterns_of patterns.entry) (boxed set.entry) (bind_trees (map bind_view rest.entry.more.now)) rest.entry.inside ≡ next_check here.entry.setting next) }
{
    let step = BindStep::Set {
        patterns,
        place: place_of(set),
        rest,
    };
    part_of(here, set, Step::Bind(step))
}

/// The next of the definitions of a `let`; with none left, the body.
pub fn definitions_next<'t>(
    here: Here<'_>,
    definitions: &'t [Defined],
    body: &'t Box<Expr>,
) -> Result<Next<'t>, OutOfMemory>
    ensures { IfOk result (λ next. defined_in (spec_here here.entry) (scope_here here.entry) (defined_trees (map defined_view definitions.entry.now)) (let_body here.entry.setting (boxed body.entry)) ≡ next_check here.entry.setting next) }
{
    match definitions {
        [] => becomes(here, body),
        [definition, ..] => definition_next(here, &definition.value, definitions, body),
    }
}

fn definition_next<'t>(
    here: Here<'_>,
    value: &'t Box<Expr>,
    definitions: &'t [Defined],
    body: &'t Box<Expr>,
) -> Result<Next<'t>, OutOfMemory>
    ensures { IfOk result (λ next. let_check here.entry.setting (scope_here here.entry) (boxed value.entry) (map defined_view definitions.entry.now) (boxed body.entry) ≡ next_check here.entry.setting next) }
{
    let step = BindStep::Defined {
        definitions,
        place: place_of(value),
        body,
    };
    part_of(here, value, Step::Bind(step))
}
