// Whether a type takes a value, where somebody tells which invariants hold.

ghost use Rattle.std.specs.Prelude.{◌≡◌, Bool, true, false, Result};
ghost use Rattle.vdm_kinds.specs.declared.name.Name.{Name as NameOf};
ghost use Rattle.vdm_kinds.specs.declared.run_fault.RunFault.{RunFault as Fault};
ghost use Rattle.abstract_syntax.specs.Values.{ValueTree};
ghost use Rattle.type_tree.specs.TypeView.{type_view};
ghost use Rattle.type_meaning.specs.Tests.{fitting, tested, decided};
ghost use Rattle.type_meaning.specs.Shapes.{tests_of};
ghost use Rattle.conform.specs.Frames.{found_in};
ghost use Rattle.conform.specs.Fits.{Tells, Judged, judged, then_said, Went, standing};

use crate::shapes::tests_of;
use crate::test::Test;
use crate::testing::{Testing, Turn};
use expr_tree::{TypeExpr, TypeNames};
use std::alloc::Global;
use vdm_kinds::{Halt, Name, OutOfMemory, RunFault};
use vdm_values::Value;

/// How a value fits a type.
#[derive(Clone, Copy, Debug, PartialEq, Eq)]
pub enum Fit {
    Fits,
    /// It has another structure.
    WrongType,
    /// It misses an invariant alone.
    WrongInvariant,
}

/// Tells which invariants hold.
pub trait InvRunner {
    /// What it tells of the invariant of the type of this class and name, and of a value.
    ghost tells: { Self → NameOf → NameOf → ValueTree → Result Bool Fault };

    /// Whether the invariant of the type of this class and name holds of the value.
    fn holds(
        &mut self,
        alloc: Global,
        class: Name,
        name: Name,
        value: &Value,
    ) -> Result<bool, Halt<RunFault>>
        ensures told { Tells result (tells self.old class name value.now) }
        ensures same { tells self.new ≡ tells self.old };
}

/// How the value fits the type in the class `scope`: its shape first, and then the invariants, as the runner tells.
///
/// # Errors
///
/// The fault of the first invariant that faults, as the runner tells it.
pub fn conform<N: TypeNames, R: InvRunner>(
    alloc: Global,
    value: &Value,
    scope: Name,
    declared: &TypeExpr,
    names: &N,
    runner: &mut R,
) -> Result<Fit, Halt<RunFault>>
    ensures fit { Judged result (judged (R.tells runner.old) (fitting (tests_of (N.found names.now) (N.descends names.now) (N.rank names.now) value.now scope (type_view declared.now)))) }
    ensures same { R.tells runner.new ≡ R.tells runner.old }
{
    match tests_of(alloc, value, scope, declared, names)? {
        Some(tests) => fit_of(all_tested(alloc, tests, names, runner)),
        None => Ok(Fit::WrongType),
    }
}

/// How a value fits that has the shape, by whether all that has to hold does.
fn fit_of(tested: Result<bool, Halt<RunFault>>) -> Result<Fit, Halt<RunFault>>
    ensures { (told : Result Bool Fault) → Tells tested told → Judged result (then_said told) }
{
    match tested {
        Ok(true) => Ok(Fit::Fits),
        Ok(false) => Ok(Fit::WrongInvariant),
        Err(halt) => Err(halt),
    }
}

/// Makes the tests one by one.
fn all_tested<'t, N: TypeNames, R: InvRunner>(
    alloc: Global,
    tests: Vec<Test<'t>>,
    names: &'t N,
    runner: &mut R,
) -> Result<bool, Halt<RunFault>>
    ensures told { Tells result (judged (R.tells runner.old) (tested (found_in (N.found names.now) (N.descends names.now) (N.rank names.now) tests.entry.items) (decided true) (decided false))) }
    ensures same { R.tells runner.new ≡ R.tells runner.old }
{
    let mut testing = Testing::new(alloc, tests)?;
    for step in 0..u64::MAX {
        if let Some(holds) = test_next(alloc, &mut testing, names, runner)? {
            return Ok(holds);
        }
    }
    Err(Halt::OutOfMemory)
}

/// Makes one test more.
fn test_next<'t, N: TypeNames, R: InvRunner>(
    alloc: Global,
    testing: &mut Testing<'t>,
    names: &'t N,
    runner: &mut R,
) -> Result<Option<bool>, Halt<RunFault>>
    ensures went { Went result (R.tells runner.old) (standing (N.found names.now) (N.descends names.now) (N.rank names.now) testing.old) (standing (N.found names.now) (N.descends names.now) (N.rank names.now) testing.new) }
    ensures same { R.tells runner.new ≡ R.tells runner.old }
{
    match testing.next(alloc, names)? {
        Turn::Holds => Ok(Some(true)),
        Turn::Fails => Ok(Some(false)),
        Turn::Asks(definition, value) => {
            let holds = runner.holds(alloc, definition.class, definition.name, &value)?;
            testing.answer(holds);
            Ok(None)
        }
    }
}
