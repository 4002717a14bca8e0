// Values that are tested against types where no value of the test is wanted.

ghost use Rattle.std.specs.Prelude.{◌≡◌, Some, IfOk};
ghost use Rattle.abstract_syntax.specs.Classes.{SpecTree};
ghost use Rattle.type_tree.specs.TypeView.{type_view};
ghost use Rattle.node_meaning.specs.Envs.{Locals, no_nest};
ghost use Rattle.node_meaning.specs.Fitting.{typed};
ghost use Rattle.node_meaning.specs.Tasks.{Code, with_value};
ghost use Rattle.plans.specs.Plans.{bind};
ghost use Rattle.spec_table.specs.Tables.{table_spec};
ghost use Rattle.fit_steps.specs.Tests.{tested_code};
ghost use Rattle.stmt_meaning.specs.Questions.{of_thread};
ghost use Rattle.call_steps.specs.Trials.{tried_code};

use eval_data::{Frame, Here, Nest};
use fit_steps::{Tested, fitted};
use spec_table::ClassTable;
use std::alloc::Global;
use type_tree::TypeExpr;
use vdm_kinds::{Name, OutOfMemory, Place, RunFault};
use vdm_tree::Expr;
use vdm_values::{Slot, Value};

/// How far the test of a value comes by itself.
#[derive(Drop)]
pub enum Tried<'t> {
    /// It fits, or there is none.
    Passes,
    Fails(RunFault),
    /// An invariant is evaluated: a part of it, and what is done with what comes of that.
    Asks(Here<'t>, &'t Expr, Frame<'t>),
}

/// A value is tested against a type, in a class and inside of no other test; a fault stands at the place.
///
/// # Errors
/// Want of memory.
pub fn value_tried<'t>(
    alloc: Global,
    table: &'t ClassTable,
    locals: &mut Vec<(Name, Slot)>,
    place: Place,
    class: Name,
    declared: &'t TypeExpr,
    value: &Value,
) -> Result<Tried<'t>, OutOfMemory>
    ensures { IfOk result (λ t. (further : Locals → Code) → tried_code (table_spec table.now) place locals.new.items further t ≡ typed (table_spec table.now) no_nest (Some class) (type_view declared.now) place (λ v. further) value.now locals.old.items) }
{
    let class = Some(class);
    let nest = Nest::none();
    let value = value.copy(alloc)?;
    let tested = fitted(alloc, table, locals, nest, class, declared, place, value)?;
    Ok(without_value(tested))
}

/// No more of a value that fits is wanted.
fn without_value<'t>(tested: Tested<'t>) -> Tried<'t>
    ensures { (spec : SpecTree) (place : Place) (locals : Locals) (further : Locals → Code) → tried_code spec place locals further result ≡ bind (tested_code (of_thread spec) place locals tested.entry) (with_value place (λ v. further)) }
{
    match tested {
        Tested::Gives(_value) => Tried::Passes,
        Tested::Fails(fault) => Tried::Fails(fault),
        Tested::Asks(here, tree, inner) => Tried::Asks(here, tree, inner),
    }
}
