// The check of a whole expression.

ghost use Rattle.std.specs.Prelude.{◌≡◌, None, Some, Err, IfOk};
ghost use Rattle.vdm_kinds.specs.declared.spec_fault.SpecFault.{SpecFault};
ghost use Rattle.expr_tree.specs.View.{view_of};
ghost use Rattle.class_checks.specs.Expressions.{check};
ghost use Rattle.class_checks.specs.Results.{first_fault, gives};
ghost use Rattle.check_named.specs.Below.spec_table.specs.Tables.{table_spec};
ghost use Rattle.check_named.specs.Below.check_scopes.specs.Told.{first_in, scope_view, told};
ghost use Rattle.check_named.specs.Below.check_frames.specs.Meant.{scope_here, spec_here};

use crate::exprs::expr_next;
use crate::run::run;
use crate::state::State;
use check_named::handed::check_frames::Here;
use check_named::handed::check_scopes::{Refusals, Scope, Setting};
use check_named::handed::spec_table::ClassTable;
use expr_tree::Expr;
use std::alloc::Global;
use type_forms::Form;
use vdm_kinds::{Halt, OutOfMemory, SpecFault};

/// The form of an expression that stands in the scope, or the first refusal: at the first place in text order, and there the
/// one with the least number.
pub fn check_expr(
    alloc: Global,
    table: &ClassTable,
    scope: &Scope,
    expr: &Expr,
) -> Result<Form, Halt<SpecFault>>
    ensures form { IfOk result (λ form. form ≡ (check (table_spec table.now) (scope_view scope.now) (view_of expr.now)).form) }
    ensures well_typed { IfOk result (λ form. first_fault (check (table_spec table.now) (scope_view scope.now) (view_of expr.now)) ≡ None) }
    ensures refused { (fault : SpecFault) → result ≡ Err (Halt.Of fault) → first_fault (check (table_spec table.now) (scope_view scope.now) (view_of expr.now)) ≡ Some fault }
{
    let mut refusals = Refusals::new();
    let here = Here {
        alloc,
        setting: Setting { table, scope },
        locals: &scope.locals,
    };
    let form = form_here(here, expr, &mut refusals)?;
    match refusals.first() {
        Some(fault) => Err(Halt::Of(fault)),
        None => Ok(form),
    }
}

/// The form of an expression that stands here; what is refused in it is noted.
pub fn form_here(here: Here<'_>, expr: &Expr, refusals: &mut Refusals) -> Result<Form, OutOfMemory>
    ensures { IfOk result (λ form. told (first_in refusals.old) (check (spec_here here.entry) (scope_here here.entry) (view_of expr.now)) ≡ told (first_in refusals.new) (gives form)) }
{
    let next = expr_next(here, expr, refusals)?;
    let frames = Vec::new(here.alloc);
    run(here.alloc, here.setting, State { next, frames }, refusals)
}
