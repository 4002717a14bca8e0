// The first binding of a pattern with a value, and of several patterns.

ghost use Rattle.std.specs.Prelude.{◌≡◌, IfOk, IfSome, IsSomeAnd, Err, map, option_map};
ghost use Rattle.abstract_syntax.specs.ValueSets.{IsTooLarge, IsWithinLimits as IsValueWithinLimits};
ghost use Rattle.expr_tree.specs.View.{pattern_view};
ghost use Rattle.pattern_meaning.specs.Bindings.{first_binding, IsWithinLimits, IsPastLimits};
ghost use Rattle.pattern_meaning.specs.Lists.{binding_of_list};
ghost use Rattle.pattern_meaning.specs.RecordTypes.{stands_for};
ghost use Rattle.patterns.specs.Todos.{subject_tree};
ghost use Rattle.patterns.specs.declared.bound.Bound.{Bound as BoundName};
ghost use Rattle.vdm_kinds.specs.declared.halt.Halt.{Halt};
ghost use Rattle.vdm_kinds.specs.declared.run_fault.RunFault.TheVariants.{SizeLimit};

use crate::bind_list::BindList;
use crate::bound::Bound;
use crate::search::Search;
use crate::subject::Subject;
use expr_tree::{Pattern, TypeNames};
use std::alloc::Global;
use vdm_kinds::{Halt, Name, OutOfMemory, RunFault};
use vdm_sets::within_limits;
use vdm_values::{Node, Value, ValueList};

/// The first binding of a pattern with a value: the names of the pattern, each once and in the order of their first occurrence, and
/// what they stand for. `given` has the values of the pattern's bracketed expressions in text order. A record pattern matches records of
/// the type alone that its name stands for in the class `scope`, and none where the name stands for no record type. None exactly where
/// there is no binding.
///
/// # Errors
///
/// `SizeLimit` exactly where the first binding gives a name a value of more than 200,000 nodes or depth above 500.
pub fn bind<N: TypeNames>(
    alloc: Global,
    p: &Pattern,
    v: &Value,
    given: &ValueList,
    scope: Name,
    names: &N,
) -> Result<Option<BindList>, Halt<RunFault>>
    ensures bound { IfOk result (λ found. (found ≡ first_binding (stands_for (N.found names.now) (N.rank names.now) scope) (pattern_view p.now) given.now v.now) × IfSome found IsWithinLimits) }
    ensures refused { (fault : RunFault) → result ≡ Err (Halt.Of fault) → (fault ≡ SizeLimit) × IsSomeAnd (first_binding (stands_for (N.found names.now) (N.rank names.now) scope) (pattern_view p.now) given.now v.now) IsPastLimits }
{
    bind_all(alloc, &[p], &[v], given, scope, names)
}

/// The first binding of several patterns, each with the value at its place: as of one pattern that is made of them, so that equal names
/// stand for equal values. There is none where values are missing; those behind the last pattern are left aside.
///
/// # Errors
///
/// `SizeLimit` exactly where the first binding gives a name a value of more than 200,000 nodes or depth above 500.
pub fn bind_all<N: TypeNames>(
    alloc: Global,
    patterns: &[&Pattern],
    values: &[&Value],
    given: &ValueList,
    scope: Name,
    names: &N,
) -> Result<Option<BindList>, Halt<RunFault>>
    ensures bound { IfOk result (λ found. (found ≡ binding_of_list (stands_for (N.found names.now) (N.rank names.now) scope) (map (λ p. pattern_view p.now) patterns.now) given.now (map (λ v. v.now) values.now)) × IfSome found IsWithinLimits) }
    ensures refused { (fault : RunFault) → result ≡ Err (Halt.Of fault) → (fault ≡ SizeLimit) × IsSomeAnd (binding_of_list (stands_for (N.found names.now) (N.rank names.now) scope) (map (λ p. pattern_view p.now) patterns.now) given.now (map (λ v. v.now) values.now)) IsPastLimits }
{
    if values.len() < patterns.len() {
        return Ok(None);
    }
    let mut search = Search::new(alloc, patterns, values, given.as_slice())?;
    if search.run(alloc, scope, names)? {
        Ok(Some(copies(alloc, search.bound())?))
    } else {
        Ok(None)
    }
}

// The names with values of their own.
fn copies(alloc: Global, bounds: &[Bound<'_>]) -> Result<BindList, Halt<RunFault>>
    ensures made { IfOk result (λ list. (list ≡ map (λ (b : BoundName). (b.name, subject_tree b.subject)) bounds.now) × IsWithinLimits list) }
    ensures refused { (fault : RunFault) → result ≡ Err (Halt.Of fault) → (fault ≡ SizeLimit) × IsPastLimits (map (λ (b : BoundName). (b.name, subject_tree b.subject)) bounds.now) }
{
    let mut pairs = Vec::with_capacity(alloc, bounds.len())?;
    for bound in bounds {
        let value = value_of(alloc, bound.subject)?;
        pairs.push((bound.name, value))?;
    }
    Ok(BindList::from_vec(pairs))
}

// A value of its own.
fn value_of(alloc: Global, subject: Subject<'_>) -> Result<Value, Halt<RunFault>>
    ensures made { IfOk result (λ v. (v ≡ subject_tree subject.entry) × IsValueWithinLimits v) }
    ensures refused { (fault : RunFault) → result ≡ Err (Halt.Of fault) → (fault ≡ SizeLimit) × IsTooLarge (subject_tree subject.entry) }
{
    let value = copy_of(alloc, subject)?;
    within_limits(value)
}

fn copy_of(alloc: Global, subject: Subject<'_>) -> Result<Value, OutOfMemory>
    ensures { IfOk result (λ v. v ≡ subject_tree subject.entry) }
{
    match subject {
        Subject::Whole(value) => Ok(value.copy(alloc)?),
        Subject::Part(items) => Ok(Value::new(Node::Seq(copy_items(alloc, items)?))),
    }
}

fn copy_items(alloc: Global, items: &[Value]) -> Result<Vec<Value>, OutOfMemory>
    ensures { IfOk result (λ copies. copies.items ≡ items.now) }
{
    let mut copies = Vec::with_capacity(alloc, items.len())?;
    for item in items {
        copies.push(item.copy(alloc)?)?;
    }
    Ok(copies)
}
