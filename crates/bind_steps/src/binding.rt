// What patterns bind.

ghost use Rattle.std.specs.Prelude.{◌≡◌, List, [], ◌∷◌, ◌++◌, map, Option, Some, IfOk, IfSome, IsSomeAnd, Err};
ghost use Rattle.abstract_syntax.specs.Classes.{SpecTree};
ghost use Rattle.abstract_syntax.specs.Values.{ValueTree};
ghost use Rattle.vdm_kinds.specs.declared.name.Name.{Name as NameOf};
ghost use Rattle.vdm_kinds.specs.declared.halt.Halt.{Halt};
ghost use Rattle.vdm_kinds.specs.declared.place.Place.{Place};
ghost use Rattle.vdm_kinds.specs.declared.run_fault.RunFault.TheVariants.{SizeLimit};
ghost use Rattle.pattern_meaning.specs.Bindings.{IsWithinLimits, IsPastLimits};
ghost use Rattle.node_meaning.specs.Envs.{Locals, bound_locals, type_scope};
ghost use Rattle.node_meaning.specs.Matching.{first_match, bound_or};
ghost use Rattle.node_meaning.specs.Tasks.{Code};
ghost use Rattle.eval_data.specs.Parts.{patterns_at};
ghost use Rattle.spec_table.specs.Tables.{table_spec};
ghost use Rattle.vdm_values.specs.declared.slot.Slot.TheVariants.{Held};
ghost use Rattle.bind_steps.specs.Attempts.{attempted};

use crate::attempt::Attempt;
use expr_tree::Pattern;
use patterns::{BindList, bind_all};
use spec_table::ClassTable;
use std::alloc::Global;
use vdm_kinds::{Halt, Name, OutOfMemory, RunFault};
use vdm_sets::within_limits;
use vdm_values::{Slot, Value, ValueList};

/// The first binding of patterns with values, where a name of a type means what it means in the class of the node. `given` has the
/// values of the expressions in brackets in all patterns, in text order.
///
/// # Errors
///
/// `SizeLimit` exactly where it gives a name a value past the limits of size.
pub fn first_match(
    alloc: Global,
    table: &ClassTable,
    scope: Option<Name>,
    patterns: &[&Pattern],
    given: &ValueList,
    values: &[&Value],
) -> Result<Option<BindList>, Halt<RunFault>>
    ensures bound { IfOk result (λ found. (found ≡ first_match (table_spec table.now) scope (patterns_at patterns.now) given.now (map (λ v. v.now) values.now)) × IfSome found IsWithinLimits) }
    ensures refused { (fault : RunFault) → result ≡ Err (Halt.Of fault) → (fault ≡ SizeLimit) × IsSomeAnd (first_match (table_spec table.now) scope (patterns_at patterns.now) given.now (map (λ v. v.now) values.now)) IsPastLimits }
{
    bind_all(alloc, patterns, values, given, type_scope(scope), table)
}

/// The class by which the names of types are found: `IO` where the node stands in none.
pub fn type_scope(scope: Option<Name>) -> Name
    ensures { result ≡ type_scope scope }
{
    match scope {
        Some(class) => class,
        None => Name::IO,
    }
}

/// What is bound stands behind the locals. It is shared, so that each look-up of a name takes constant time.
pub fn bound(
    alloc: Global,
    locals: &mut Vec<(Name, Slot)>,
    binding: BindList,
) -> Result<(), OutOfMemory>
    ensures { IfOk result (λ _. locals.new.items ≡ locals.old.items ++ bound_locals binding) }
{
    for (name, value) in binding.into_vec() {
        push_shared(alloc, locals, name, value)?;
    }
    Ok(())
}

/// A local with this value, which is shared.
pub fn push_shared(
    alloc: Global,
    locals: &mut Vec<(Name, Slot)>,
    name: Name,
    value: Value,
) -> Result<(), OutOfMemory>
    ensures { IfOk result (λ _. locals.new.items ≡ locals.old.items ++ (name, Held value) ∷ []) }
{
    let value = value.share(alloc)?;
    locals.push((name, Slot::Held(value)))?;
    Ok(())
}

/// Patterns meet values: where they match, what they bind stands behind the locals.
pub fn bound_or(
    alloc: Global,
    table: &ClassTable,
    scope: Option<Name>,
    patterns: &[&Pattern],
    given: &ValueList,
    values: &[&Value],
    locals: &mut Vec<(Name, Slot)>,
) -> Result<Attempt, OutOfMemory>
    ensures { IfOk result (λ attempt. (place : Place) (matched missed : Locals → Code) → attempted place attempt matched missed locals.new.items ≡ bound_or place (first_match (table_spec table.now) scope (patterns_at patterns.now) given.now (map (λ v. v.now) values.now)) matched missed locals.old.items) }
{
    match lone_name(patterns, values) {
        Some((name, value)) => name_bound(alloc, locals, name, value),
        None => searched(alloc, table, scope, patterns, given, values, locals),
    }
}

/// The name and its value, where the patterns are one name: that needs no search.
fn lone_name<'v>(patterns: &[&Pattern], values: &[&'v Value]) -> Option<(Name, &'v Value)>
    ensures { IfSome result (λ found. (spec : SpecTree) (scope : Option NameOf) (given : List ValueTree) → first_match spec scope (patterns_at patterns.now) given (map (λ v. v.now) values.now) ≡ Some ((found.0, found.1.now) ∷ [])) }
{
    let [pattern] = patterns else {
        return None;
    };
    let [value, ..] = values else {
        return None;
    };
    match pattern {
        Pattern::Bound(name, _) => Some((*name, *value)),
        _ => None,
    }
}

/// A name is bound to a value.
fn name_bound(
    alloc: Global,
    locals: &mut Vec<(Name, Slot)>,
    name: Name,
    value: &Value,
) -> Result<Attempt, OutOfMemory>
    ensures { IfOk result (λ attempt. (place : Place) (matched missed : Locals → Code) → attempted place attempt matched missed locals.new.items ≡ bound_or place (Some ((name, value.now) ∷ [])) matched missed locals.old.items) }
{
    match within_limits(value.copy(alloc)?) {
        Ok(value) => {
            push_shared(alloc, locals, name, value)?;
            Ok(Attempt::Matched)
        }
        Err(Halt::Of(kind)) => Ok(Attempt::Fault(kind)),
        Err(Halt::OutOfMemory) => Err(OutOfMemory),
    }
}

/// The first binding is searched for.
fn searched(
    alloc: Global,
    table: &ClassTable,
    scope: Option<Name>,
    patterns: &[&Pattern],
    given: &ValueList,
    values: &[&Value],
    locals: &mut Vec<(Name, Slot)>,
) -> Result<Attempt, OutOfMemory>
    ensures { IfOk result (λ attempt. (place : Place) (matched missed : Locals → Code) → attempted place attempt matched missed locals.new.items ≡ bound_or place (first_match (table_spec table.now) scope (patterns_at patterns.now) given.now (map (λ v. v.now) values.now)) matched missed locals.old.items) }
{
    match first_match(alloc, table, scope, patterns, given, values) {
        Ok(Some(binding)) => {
            bound(alloc, locals, binding)?;
            Ok(Attempt::Matched)
        }
        Ok(None) => Ok(Attempt::Missed),
        Err(Halt::Of(fault)) => Ok(Attempt::Fault(fault)),
        Err(Halt::OutOfMemory) => Err(OutOfMemory),
    }
}
