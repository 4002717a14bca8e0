// Whether values fit types, as values.

ghost use Rattle.std.specs.Prelude.{◌≡◌, [], IfOk, Some, None, if◌then◌else◌, option_map};
ghost use Rattle.vdm_kinds.specs.declared.place.Place.{Place as PlaceOf};
ghost use Rattle.spec_table.specs.Tables.{table_spec};
ghost use Rattle.node_meaning.specs.Envs.{type_scope};
ghost use Rattle.node_meaning.specs.Expressions.{fit_value};
ghost use Rattle.node_meaning.specs.Needs.{Asker};
ghost use Rattle.type_meaning.specs.Shapes.{is_of_basic, tests_of};
ghost use Rattle.member_meaning.specs.TypeRanks.{finder, type_rank};
ghost use Rattle.spec_table.specs.Members.{descends_from};
ghost use Rattle.conform.specs.Frames.{found_in};
ghost use Rattle.eval_data.specs.Parts.{asked_type, nest_of};
ghost use Rattle.eval_data.specs.Steps.{code_of};
ghost use Rattle.fit_steps.specs.Tests.{under};

use crate::fitting::judged;
use bind_steps::type_scope;
use conform::{Test, is_of_basic, tests_of, tests_of_name};
use eval_data::{AskedType, Nest, Step, Verdict};
use spec_table::ClassTable;
use std::alloc::Global;
use vdm_kinds::{BasicType, Name, OutOfMemory, Place};
use vdm_values::{Slot, Value};

/// Whether a value fits a type in the class of the node at the place, as the value of that node.
pub fn fit_answer<'t>(
    alloc: Global,
    table: &'t ClassTable,
    locals: &mut Vec<(Name, Slot)>,
    nest: Nest,
    scope: Option<Name>,
    asked: AskedType<'t>,
    place: Place,
    value: &Value,
) -> Result<Step<'t>, OutOfMemory>
    ensures { IfOk result (λ s. (asker : Asker) → code_of (under (table_spec table.entry.now) asker) locals.new.items s ≡ fit_value (table_spec table.entry.now) (nest_of nest) scope (asked_type place asked.entry) place value.now locals.old.items) }
{
    let tests = wanted(alloc, table, scope, asked, value)?;
    let tested = judged(alloc, table, locals, nest, place, Verdict::Answers, tests)?;
    Ok(tested.into_step(place))
}

/// What has to hold of the value, so that the type takes it; none where it has another shape.
fn wanted<'t>(
    alloc: Global,
    table: &'t ClassTable,
    scope: Option<Name>,
    asked: AskedType<'t>,
    value: &Value,
) -> Result<Option<Vec<Test<'t>>>, OutOfMemory>
    ensures { IfOk result (λ found. (place : PlaceOf) → option_map (λ tests. found_in (finder (table_spec table.entry.now)) (descends_from (table_spec table.entry.now)) (type_rank (table_spec table.entry.now)) tests.items) found ≡ tests_of (finder (table_spec table.entry.now)) (descends_from (table_spec table.entry.now)) (type_rank (table_spec table.entry.now)) value.now (type_scope scope) (asked_type place asked.entry)) }
{
    let class = type_scope(scope);
    match asked {
        AskedType::Written(declared) => tests_of(alloc, value, class, declared, table),
        AskedType::Named(name) => tests_of_name(alloc, value, class, name, table),
        AskedType::Basic(basic) => Ok(plainly(alloc, basic, value)),
    }
}

/// A type of a word wants nothing beside its shape.
fn plainly<'t>(alloc: Global, basic: BasicType, value: &Value) -> Option<Vec<Test<'t>>>
    ensures { option_map (λ tests. tests.items) result ≡ (if is_of_basic basic value.now then Some [] else None) }
{
    if is_of_basic(basic, value) {
        Some(Vec::new(alloc))
    } else {
        None
    }
}
