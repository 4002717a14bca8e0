// Tests that are being made, from one invariant to the next.

ghost use Rattle.std.specs.Prelude.{◌≡◌, ℕ, Bool, IfOk, true, false, if◌then◌else◌};
ghost use Rattle.vdm_kinds.specs.declared.name.Name.{Name as NameOf};
ghost use Rattle.abstract_syntax.specs.Classes.{SpecTree, TypeDefTree};
ghost use Rattle.expr_tree.specs.Alternatives.{Finder};
ghost use Rattle.spec_table.specs.Members.{descends_from};
ghost use Rattle.conform.specs.Testings.{met_behind, stands_at, unmet_behind, Turned};
ghost use Rattle.type_meaning.specs.Tests.{decided, tested as tests_made};
ghost use Rattle.spec_table.specs.Tables.{table_spec};
ghost use Rattle.conform.specs.Fits.{says};
ghost use Rattle.conform.specs.Frames.{found_in};
ghost use Rattle.member_meaning.specs.TypeRanks.{finder, type_rank};
ghost use Rattle.node_meaning.specs.Fitting.{descends, fit_then};
ghost use Rattle.node_meaning.specs.Needs.{Asker};
ghost use Rattle.eval_data.specs.Parts.{nest_of};
ghost use Rattle.eval_data.specs.Steps.{code_of, judged, told, verdict_of};
ghost use Rattle.fit_steps.specs.Tests.{standing, tested_code, under};

use crate::invariants::asked;
use crate::tested::Tested;
use crate::verdicts::{fits, wrong_invariant};
use conform::{Test, Testing, Turn};
use eval_data::{Asking, Nest, Step, Verdict};
use spec_table::ClassTable;
use std::alloc::Global;
use std::mem;
use vdm_kinds::{Name, OutOfMemory, Place};
use vdm_values::Slot;

/// What has to hold of a value is tested.
pub(crate) fn begun<'t>(
    alloc: Global,
    table: &'t ClassTable,
    locals: &mut Vec<(Name, Slot)>,
    nest: Nest,
    place: Place,
    verdict: Verdict,
    tests: Vec<Test<'t>>,
) -> Result<Tested<'t>, OutOfMemory>
    ensures { IfOk result (λ t. (asker : Asker) → tested_code (under (table_spec table.entry.now) asker) place locals.new.items t ≡ fit_then (table_spec table.entry.now) (nest_of nest) place (verdict_of verdict place locals.old.items) (says (tests_made (found_in (finder (table_spec table.entry.now)) (descends (table_spec table.entry.now)) (type_rank (table_spec table.entry.now)) tests.entry.items) (decided true) (decided false)))) }
{
    let testing = Testing::new(alloc, tests)?;
    let asking = Asking {
        testing,
        verdict,
        place,
        nest,
        outer: mem::replace(locals, Vec::new(alloc)),
    };
    advanced(alloc, table, locals, asking)
}

/// The invariant that was asked holds or does not, and the test goes on.
pub fn told<'t>(
    alloc: Global,
    table: &'t ClassTable,
    locals: &mut Vec<(Name, Slot)>,
    asking: Box<Asking<'t>>,
    holds: bool,
) -> Result<Step<'t>, OutOfMemory>
    ensures { IfOk result (λ s. (asker : Asker) → code_of (under (table_spec table.entry.now) asker) locals.new.items s ≡ told (table_spec table.entry.now) asking.entry.value holds locals.old.items) }
{
    let mut asking = Box::into_inner(asking);
    answered(&mut asking, holds);
    let place = asking.place;
    let tested = advanced(alloc, table, locals, asking)?;
    Ok(tested.into_step(place))
}

/// Goes on until an invariant is asked, or all is decided.
fn advanced<'t>(
    alloc: Global,
    table: &'t ClassTable,
    locals: &mut Vec<(Name, Slot)>,
    asking: Asking<'t>,
) -> Result<Tested<'t>, OutOfMemory>
    ensures { IfOk result (λ t. (asker : Asker) → tested_code (under (table_spec table.entry.now) asker) asking.entry.place locals.new.items t ≡ judged (table_spec table.entry.now) asking.entry (standing (table_spec table.entry.now) asking.entry.testing)) }
{
    let mut asking = asking;
    match next_turn(alloc, table, &mut asking)? {
        Turn::Holds => Ok(held(alloc, locals, asking)),
        Turn::Fails => Ok(failed(alloc, locals, asking)),
        Turn::Asks(definition, value) => {
            let asking = Box::new(alloc, asking)?;
            asked(alloc, table, locals, asking, definition, value)
        }
    }
}

/// The next invariant that is asked, or what is decided.
fn next_turn<'t>(
    alloc: Global,
    table: &'t ClassTable,
    asking: &mut Asking<'t>,
) -> Result<Turn<'t>, OutOfMemory>
    ensures kept { asking.new ≡ record asking.old { testing = asking.new.testing } }
    ensures turned { IfOk result (λ turn. Turned (finder (table_spec table.entry.now)) (descends_from (table_spec table.entry.now)) (type_rank (table_spec table.entry.now)) turn (stands_at (finder (table_spec table.entry.now)) (descends_from (table_spec table.entry.now)) (type_rank (table_spec table.entry.now)) asking.old.testing.waiting.items asking.old.testing.holds) asking.new.testing.waiting.items) }
{
    asking.testing.next(alloc, table)
}

/// The invariant that was asked holds or does not.
fn answered<'t>(asking: &mut Asking<'t>, holds: bool)
    ensures kept { asking.new ≡ record asking.old { testing = asking.new.testing } }
    ensures told { (find : Finder) (descends : NameOf → NameOf → Bool) (rank : TypeDefTree → ℕ) → stands_at find descends rank asking.new.testing.waiting.items asking.new.testing.holds ≡ (if holds then met_behind find descends rank asking.old.testing.waiting.items else unmet_behind find descends rank asking.old.testing.waiting.items) }
{
    asking.testing.answer(holds);
}

/// All that has to hold does.
fn held<'t>(alloc: Global, locals: &mut Vec<(Name, Slot)>, asking: Asking<'t>) -> Tested<'t>
    ensures { (spec : SpecTree) (asker : Asker) → tested_code (under spec asker) asking.entry.place locals.new.items result ≡ judged spec asking.entry (decided true) }
{
    let mut asking = asking;
    *locals = mem::replace(&mut asking.outer, Vec::new(alloc));
    fits(mem::replace(&mut asking.verdict, Verdict::Answers))
}

/// Something does not.
fn failed<'t>(alloc: Global, locals: &mut Vec<(Name, Slot)>, asking: Asking<'t>) -> Tested<'t>
    ensures { (spec : SpecTree) (asker : Asker) → tested_code (under spec asker) asking.entry.place locals.new.items result ≡ judged spec asking.entry (decided false) }
{
    let mut asking = asking;
    *locals = mem::replace(&mut asking.outer, Vec::new(alloc));
    wrong_invariant(mem::replace(&mut asking.verdict, Verdict::Answers))
}
