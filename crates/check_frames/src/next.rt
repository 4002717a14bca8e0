// What comes next.

ghost use Rattle.std.specs.Prelude.{◌≡◌, IfOk};
ghost use Rattle.expr_tree.specs.View.{view_of};
ghost use Rattle.class_checks.specs.Expressions.{check};
ghost use Rattle.class_checks.specs.Results.{after};
ghost use Rattle.check_frames.specs.Meant.{next_check, scope_here, spec_here, step_check};

use crate::after::After;
use crate::here::Here;
use crate::step::{Frame, Step};
use check_patterns::handed::check_scopes::Locals;
use expr_tree::Expr;
use type_forms::Form;
use vdm_kinds::OutOfMemory;

/// What comes next.
#[derive(Drop)]
pub enum Next<'t> {
    /// The node has this form.
    Gives(Form),
    /// A part is checked, and the frame gets its form.
    Part(&'t Expr, Locals, Frame<'t>),
    /// What comes behind patterns.
    Goes(After<'t>),
    /// The node is what another one is.
    Becomes(&'t Expr, Locals),
}

impl<'t> Next<'t> {
    /// A part is checked here, and then this is done with its form.
    pub fn part(here: Here<'_>, part: &'t Expr, step: Step<'t>) -> Result<Next<'t>, OutOfMemory>
        ensures { IfOk result (λ next. after (check (spec_here here.entry) (scope_here here.entry) (view_of part.entry.now)) (step_check here.entry.setting (scope_here here.entry) step.entry) ≡ next_check here.entry.setting next) }
    {
        let scope = here.locals.copy()?;
        let locals = here.locals.copy()?;
        Ok(Next::Part(part, scope, Frame { step, locals }))
    }

    /// The node is what another one is here.
    pub fn becomes(here: Here<'_>, expr: &'t Expr) -> Result<Next<'t>, OutOfMemory>
        ensures { IfOk result (λ next. check (spec_here here.entry) (scope_here here.entry) (view_of expr.entry.now) ≡ next_check here.entry.setting next) }
    {
        let scope = here.locals.copy()?;
        Ok(Next::Becomes(expr, scope))
    }
}
