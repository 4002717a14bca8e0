// The parameters of a function, which meet the arguments.

ghost use Rattle.std.specs.Prelude.{◌≡◌, [], drop, map, IfOk, Some};
ghost use Rattle.expr_tree.specs.View.{boxed_view, pattern_views};
ghost use Rattle.vdm_kinds.specs.declared.place.Place.{Place as PlaceOf};
ghost use Rattle.node_meaning.specs.Envs.{Locals};
ghost use Rattle.node_meaning.specs.Expressions.{no_match};
ghost use Rattle.vdm_tree.specs.ClassView.{function_view};
ghost use Rattle.node_meaning.specs.Functions.{begun, body_here, bound, pre_of};
ghost use Rattle.node_meaning.specs.Matching.{exprs_of, met};
ghost use Rattle.node_meaning.specs.Needs.{Asker, Setting};
ghost use Rattle.node_meaning.specs.Strict.{with_others};
ghost use Rattle.node_meaning.specs.Tasks.{Code, evaluated};
ghost use Rattle.eval_data.specs.Parts.{applying_of, boxed_list, nest_of, patterns_at};
ghost use Rattle.eval_data.specs.Steps.{code_of};
ghost use Rattle.spec_table.specs.Tables.{table_spec};
ghost use Rattle.bind_steps.specs.Attempts.{attempted};
ghost use Rattle.function_steps.specs.Applications.{binds_among};

use crate::bodies::pre_of;
use crate::brackets::{first_of, givens_of};
use crate::parts::{body_here, collecting_part};
use bind_steps::{Attempt, bound_or};
use eval_data::{Applying, Parts, Passing, Step, Then};
use expr_tree::{Expr, Pattern};
use spec_table::ClassTable;
use std::alloc::Global;
use std::mem;
use vdm_kinds::{Name, OutOfMemory, RunFault};
use vdm_values::{Slot, Value, ValueList};

/// A function whose arguments fit begins: its parameters are bound, among no other locals.
pub(crate) fn begun<'t>(
    alloc: Global,
    table: &ClassTable,
    locals: &mut Vec<(Name, Slot)>,
    passing: Passing<'t>,
) -> Result<Step<'t>, OutOfMemory>
    ensures { IfOk result (λ s. (asker : Asker) → code_of (record { spec = table_spec table.now; asker = asker }) locals.new.items s ≡ begun (table_spec table.now) passing.entry.op.class (function_view passing.entry.function.now) passing.entry.place (nest_of passing.entry.nest) passing.entry.values locals.old.items) }
{
    let applying = Applying {
        class: passing.op.class,
        function: passing.function,
        place: passing.place,
        nest: passing.nest,
        outer: mem::replace(locals, Vec::new(alloc)),
    };
    let applying = Box::new(alloc, applying)?;
    binds(alloc, table, locals, applying, passing.into_values())
}

/// The expressions in brackets in the patterns of the parameters come first, where there are any.
fn binds<'t>(
    alloc: Global,
    table: &ClassTable,
    locals: &mut Vec<(Name, Slot)>,
    applying: Box<Applying<'t>>,
    values: ValueList,
) -> Result<Step<'t>, OutOfMemory>
    ensures { IfOk result (λ s. (asker : Asker) → code_of (record { spec = table_spec table.now; asker = asker }) locals.new.items s ≡ binds_among (table_spec table.now) (applying_of applying.entry.value) values locals.old.items) }
{
    let function = applying.function;
    let found = givens_of(alloc, function.patterns.as_slice())?;
    match first_of(&found) {
        Some(first) => {
            let step = waiting(alloc, applying, values, first, found)?;
            Ok(step)
        }
        None => bound(alloc, table, locals, applying, values, Vec::new(alloc)),
    }
}

// The first of the expressions in brackets, and behind it the others and the parameters.
fn waiting<'t>(
    alloc: Global,
    applying: Box<Applying<'t>>,
    values: ValueList,
    first: &'t Box<Expr>,
    found: Vec<&'t Box<Expr>>,
) -> Result<Step<'t>, OutOfMemory>
    ensures { IfOk result (λ s. (setting : Setting) (locals : Locals) → code_of setting locals s ≡ evaluated (body_here (applying_of applying.entry.value)) locals (boxed_view first.now) applying.entry.value.place (with_others (body_here (applying_of applying.entry.value)) applying.entry.value.place (exprs_of (drop 1 (boxed_list found.entry.items))) [] (bound setting.spec (applying_of applying.entry.value) values))) }
{
    let here = body_here(&applying);
    let place = applying.place;
    let rest = Parts::Brackets(found, 1);
    let done = Vec::new(alloc);
    let then = Then::Binds(applying, values);
    let step = collecting_part(alloc, here, place, first, rest, done, then)?;
    Ok(step)
}

/// The parameters of a function meet the arguments, with the values of the expressions in brackets in their patterns; then `pre`
/// follows.
pub fn bound<'t>(
    alloc: Global,
    table: &ClassTable,
    locals: &mut Vec<(Name, Slot)>,
    applying: Box<Applying<'t>>,
    values: ValueList,
    given: Vec<Value>,
) -> Result<Step<'t>, OutOfMemory>
    ensures { IfOk result (λ s. (asker : Asker) → code_of (record { spec = table_spec table.now; asker = asker }) locals.new.items s ≡ bound (table_spec table.now) (applying_of applying.entry.value) values given.items locals.old.items) }
{
    let function = applying.function;
    let attempt = meet(
        alloc,
        table,
        locals,
        applying.class,
        function.patterns.as_slice(),
        values.as_slice(),
        given,
    )?;
    Ok(answered(applying, attempt))
}

// What follows, by what came of the patterns.
fn answered<'t>(applying: Box<Applying<'t>>, attempt: Attempt) -> Step<'t>
    ensures { (setting : Setting) (locals : Locals) → code_of setting locals result ≡ attempted applying.entry.value.place attempt (pre_of setting.spec (applying_of applying.entry.value) (applying_of applying.entry.value).function.pre) (no_match applying.entry.value.place) locals }
{
    match attempt {
        Attempt::Matched => pre_of(applying),
        Attempt::Missed => Step::Fail(RunFault::NoMatch, applying.place),
        Attempt::Fault(fault) => Step::Fail(fault, applying.place),
    }
}

/// Patterns of parameters meet values, in a class.
pub fn meet(
    alloc: Global,
    table: &ClassTable,
    locals: &mut Vec<(Name, Slot)>,
    class: Name,
    patterns: &[Pattern],
    values: &[Value],
    given: Vec<Value>,
) -> Result<Attempt, OutOfMemory>
    ensures { IfOk result (λ attempt. (place : PlaceOf) (matched missed : Locals → Code) → attempted place attempt matched missed locals.new.items ≡ met (table_spec table.now) (Some class) place (pattern_views patterns.now) values.now matched missed given.items locals.old.items) }
{
    let patterns = each_pattern(alloc, patterns)?;
    let values = each_value(alloc, values)?;
    let given = ValueList::from_vec(given);
    bound_or(
        alloc,
        table,
        Some(class),
        patterns.as_slice(),
        &given,
        values.as_slice(),
        locals,
    )
}

// References to patterns.
fn each_pattern(alloc: Global, patterns: &[Pattern]) -> Result<Vec<&Pattern>, OutOfMemory>
    ensures { IfOk result (λ found. patterns_at found.items ≡ pattern_views patterns.now) }
{
    let mut found = Vec::with_capacity(alloc, patterns.len())?;
    for pattern in patterns {
        found.push(pattern)?;
    }
    Ok(found)
}

// References to values.
fn each_value(alloc: Global, values: &[Value]) -> Result<Vec<&Value>, OutOfMemory>
    ensures { IfOk result (λ found. map (λ v. v.now) found.items ≡ values.now) }
{
    let mut found = Vec::with_capacity(alloc, values.len())?;
    for value in values {
        found.push(value)?;
    }
    Ok(found)
}
