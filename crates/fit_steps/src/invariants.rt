// Invariants that are asked whether they hold of a value.

ghost use Rattle.std.specs.Prelude.{◌≡◌, [], IfOk, Some, drop, option_map};
ghost use Rattle.vdm_kinds.specs.declared.run_fault.RunFault.TheVariants.{NoMatch};
ghost use Rattle.expr_tree.specs.TypeDefView.{invariant_view, type_def_view};
ghost use Rattle.expr_tree.specs.View.{boxed_view};
ghost use Rattle.spec_table.specs.Tables.{table_spec};
ghost use Rattle.node_meaning.specs.Envs.{Locals};
ghost use Rattle.node_meaning.specs.Fitting.{invariant_asked, invariant_of};
ghost use Rattle.node_meaning.specs.Matching.{decided as condition, exprs_of};
ghost use Rattle.node_meaning.specs.Needs.{Asker, Setting};
ghost use Rattle.node_meaning.specs.Strict.{with_others};
ghost use Rattle.node_meaning.specs.Tasks.{evaluated, fault};
ghost use Rattle.bind_steps.specs.Attempts.{attempted};
ghost use Rattle.eval_data.specs.Parts.{boxed_list, here_of, nest_of};
ghost use Rattle.eval_data.specs.Steps.{code_of, invariant_met, told};
ghost use Rattle.fit_steps.specs.Tests.{tested_code, under};

use crate::parts::{bound_to, cleared, deeper, first_of, inside_class, part};
use crate::tested::Tested;
use bind_steps::Attempt;
use eval_data::{Asking, Frame, Here, Parts, Step, Then, TruthUse, Use};
use expr_tree::{Expr, TypeDef, TypeInvariant};
use pattern_brackets::givens_in;
use spec_table::ClassTable;
use std::alloc::Global;
use vdm_kinds::{Name, OutOfMemory, Place, RunFault};
use vdm_values::{Slot, Value};

/// The invariant of a type is asked. At most sixteen are tested inside each other.
pub(crate) fn asked<'t>(
    alloc: Global,
    table: &'t ClassTable,
    locals: &mut Vec<(Name, Slot)>,
    asking: Box<Asking<'t>>,
    definition: &'t TypeDef,
    value: Value,
) -> Result<Tested<'t>, OutOfMemory>
    ensures { IfOk result (λ t. (asker : Asker) → tested_code (under (table_spec table.entry.now) asker) asking.entry.value.place locals.new.items t ≡ invariant_asked (table_spec table.entry.now) (nest_of asking.entry.value.nest) asking.entry.value.place (type_def_view definition.entry.now) value (told (table_spec table.entry.now) asking.entry.value)) }
{
    match deeper(asking.nest, asking.place) {
        None => Ok(Tested::Fails(RunFault::StepLimit)),
        Some(nest) => {
            let here = inside_class(definition.class, nest);
            invariant_of(
                alloc,
                table,
                locals,
                here,
                asking,
                &definition.invariant,
                value,
            )
        }
    }
}

/// The invariant of a type that has one.
fn invariant_of<'t>(
    alloc: Global,
    table: &'t ClassTable,
    locals: &mut Vec<(Name, Slot)>,
    here: Here<'t>,
    asking: Box<Asking<'t>>,
    invariant: &'t Option<TypeInvariant>,
    value: Value,
) -> Result<Tested<'t>, OutOfMemory>
    ensures { IfOk result (λ t. (asker : Asker) → tested_code (under (table_spec table.entry.now) asker) asking.entry.value.place locals.new.items t ≡ invariant_of (table_spec table.entry.now) (here_of here.entry) asking.entry.value.place (option_map invariant_view invariant.entry.now) value (told (table_spec table.entry.now) asking.entry.value)) }
{
    match invariant {
        None => Ok(Tested::Fails(RunFault::Undefined)),
        Some(invariant) => meets(alloc, table, locals, here, asking, invariant, value),
    }
}

/// The pattern of an invariant meets the value, among no locals: the expressions in brackets in it come first.
fn meets<'t>(
    alloc: Global,
    table: &'t ClassTable,
    locals: &mut Vec<(Name, Slot)>,
    here: Here<'t>,
    asking: Box<Asking<'t>>,
    invariant: &'t TypeInvariant,
    value: Value,
) -> Result<Tested<'t>, OutOfMemory>
    ensures { IfOk result (λ t. (asker : Asker) → tested_code (under (table_spec table.entry.now) asker) asking.entry.value.place locals.new.items t ≡ invariant_of (table_spec table.entry.now) (here_of here.entry) asking.entry.value.place (Some (invariant_view invariant.entry.now)) value (told (table_spec table.entry.now) asking.entry.value)) }
{
    let place = asking.place;
    cleared(alloc, locals);
    let found = givens_in(alloc, &invariant.pattern)?;
    match first_of(&found) {
        Some(first) => waiting(alloc, here, place, asking, invariant, value, first, found),
        None => met(
            alloc,
            table,
            locals,
            here,
            place,
            asking,
            invariant,
            value,
            Vec::new(alloc),
        ),
    }
}

/// The first of the expressions in brackets, and behind it the others and the pattern.
fn waiting<'t>(
    alloc: Global,
    here: Here<'t>,
    place: Place,
    asking: Box<Asking<'t>>,
    invariant: &'t TypeInvariant,
    value: Value,
    first: &'t Box<Expr>,
    found: Vec<&'t Box<Expr>>,
) -> Result<Tested<'t>, OutOfMemory>
    ensures { IfOk result (λ t. (setting : Setting) (locals : Locals) → tested_code setting place locals t ≡ evaluated (here_of here.entry) locals (boxed_view first.now) place (with_others (here_of here.entry) place (exprs_of (drop 1 (boxed_list found.entry.items))) [] (invariant_met setting.spec asking.entry.value (invariant_view invariant.entry.now) (here_of here.entry) place value))) }
{
    let rest = Parts::Brackets(found, 1);
    let then = Then::Invariant(asking, invariant, value);
    let frame = Frame::collecting(alloc, here, place, rest, Vec::new(alloc), then)?;
    Ok(part(here, first, frame))
}

/// The pattern of an invariant meets the value, with the values of the expressions in brackets in it, and its condition follows.
fn met<'t>(
    alloc: Global,
    table: &ClassTable,
    locals: &mut Vec<(Name, Slot)>,
    here: Here<'t>,
    place: Place,
    asking: Box<Asking<'t>>,
    invariant: &'t TypeInvariant,
    value: Value,
    given: Vec<Value>,
) -> Result<Tested<'t>, OutOfMemory>
    ensures { IfOk result (λ t. (asker : Asker) → tested_code (under (table_spec table.now) asker) place locals.new.items t ≡ invariant_met (table_spec table.now) asking.entry.value (invariant_view invariant.entry.now) (here_of here.entry) place value given.items locals.old.items) }
{
    let pattern = &invariant.pattern;
    let attempt = bound_to(alloc, table, locals, here.scope, pattern, &value, given)?;
    Ok(answered(here, place, asking, invariant, attempt))
}

/// The condition, where the pattern matches.
fn answered<'t>(
    here: Here<'t>,
    place: Place,
    asking: Box<Asking<'t>>,
    invariant: &'t TypeInvariant,
    attempt: Attempt,
) -> Tested<'t>
    ensures { (setting : Setting) (locals : Locals) → tested_code setting place locals result ≡ attempted place attempt (λ inner. condition (here_of here.entry) inner (boxed_view invariant.entry.now.condition) place (told setting.spec asking.entry.value)) (λ inner. fault NoMatch place) locals }
{
    match attempt {
        Attempt::Matched => {
            let used = Use::Truth(TruthUse::Invariant(asking));
            part(here, &invariant.condition, Frame::With(used, place))
        }
        Attempt::Missed => Tested::Fails(RunFault::NoMatch),
        Attempt::Fault(fault) => Tested::Fails(fault),
    }
}

/// The pattern of an invariant meets the value, behind the values of the expressions in brackets in it.
pub fn behind_brackets<'t>(
    alloc: Global,
    table: &ClassTable,
    locals: &mut Vec<(Name, Slot)>,
    here: Here<'t>,
    place: Place,
    asking: Box<Asking<'t>>,
    invariant: &'t TypeInvariant,
    value: Value,
    given: Vec<Value>,
) -> Result<Step<'t>, OutOfMemory>
    ensures { IfOk result (λ s. (asker : Asker) → code_of (under (table_spec table.now) asker) locals.new.items s ≡ invariant_met (table_spec table.now) asking.entry.value (invariant_view invariant.entry.now) (here_of here.entry) place value given.items locals.old.items) }
{
    let tested = met(
        alloc, table, locals, here, place, asking, invariant, value, given,
    )?;
    Ok(tested.into_step(place))
}
