// Tests that are being made.

ghost use Rattle.std.specs.Prelude.{◌≡◌, ℕ, Bool, true, false, IfOk, OnOk, if◌then◌else◌};
ghost use Rattle.vdm_kinds.specs.declared.name.Name.{Name as NameOf};
ghost use Rattle.abstract_syntax.specs.Classes.{TypeDefTree};
ghost use Rattle.expr_tree.specs.Alternatives.{Finder};
ghost use Rattle.type_tree.specs.TypeView.{type_views, type_trees};
ghost use Rattle.type_meaning.specs.Tests.{decided, tested, tried, no_tests};
ghost use Rattle.type_meaning.specs.Shapes.{choices_of};
ghost use Rattle.conform.specs.Frames.{found_in};
ghost use Rattle.conform.specs.Testings.{met_behind, unmet_behind, stands_at, follows, when_met, left_in, Stepped, Turned};

use crate::shapes::tests_of;
use crate::test::Test;
use expr_tree::{TypeDef, TypeExpr, TypeNames};
use std::alloc::Global;
use vdm_kinds::{Name, OutOfMemory};
use vdm_values::Value;

/// What follows a test.
#[derive(Drop)]
pub(crate) enum Waiting<'t> {
    /// Where it holds these have to hold too; the next is last.
    Tests(Vec<Test<'t>>),
    /// Where it does not one of these types has to take the value, in the class of the name.
    Others(Name, &'t [TypeExpr], Value),
}

/// Tests of a value that are being made.
#[derive(Drop)]
pub struct Testing<'t> {
    /// What follows, the next last.
    waiting: Vec<Waiting<'t>>,
    /// Whether the last test holds.
    holds: bool,
}

/// How far tests come by themselves.
#[derive(Drop)]
pub enum Turn<'t> {
    /// Whether the invariant of this type holds of the value has to be found out.
    Asks(&'t TypeDef, Value),
    /// All that has to hold does.
    Holds,
    /// It does not.
    Fails,
}

impl<'t> Testing<'t> {
    /// What has to hold of a value, before the first test is made.
    pub fn new(alloc: Global, tests: Vec<Test<'t>>) -> Result<Testing<'t>, OutOfMemory>
        ensures { IfOk result (λ t. (find : Finder) (descends : NameOf → NameOf → Bool) (rank : TypeDefTree → ℕ) → stands_at find descends rank t.waiting.items t.holds ≡ tested (found_in find descends rank tests.entry.items) (decided true) (decided false)) }
    {
        let mut testing = Testing {
            waiting: Vec::new(alloc),
            holds: true,
        };
        testing.follow(tests)?;
        Ok(testing)
    }

    /// Goes on until an invariant has to be found out, or all is decided.
    pub fn next<N: TypeNames>(
        &mut self,
        alloc: Global,
        names: &'t N,
    ) -> Result<Turn<'t>, OutOfMemory>
        ensures { IfOk result (λ turn. Turned (N.found names.now) (N.descends names.now) (N.rank names.now) turn (stands_at (N.found names.now) (N.descends names.now) (N.rank names.now) self.old.waiting.items self.old.holds) self.new.waiting.items) }
    {
        for step in 0..u64::MAX {
            match self.waiting.pop() {
                Some(waiting) => match self.step(alloc, waiting, names)? {
                    Some((definition, value)) => return Ok(Turn::Asks(definition, value)),
                    None => {}
                },
                None => return Ok(self.verdict()),
            }
        }
        Err(OutOfMemory)
    }

    /// What was found out: whether the invariant holds.
    pub fn answer(&mut self, holds: bool)
        ensures { (find : Finder) (descends : NameOf → NameOf → Bool) (rank : TypeDefTree → ℕ) → stands_at find descends rank self.new.waiting.items self.new.holds ≡ (if holds then met_behind find descends rank self.old.waiting.items else unmet_behind find descends rank self.old.waiting.items) }
    {
        self.holds = holds;
    }

    fn verdict(&self) -> Turn<'t>
        ensures { result ≡ (if self.now.holds then Turn.Holds else Turn.Fails) }
    {
        if self.holds { Turn::Holds } else { Turn::Fails }
    }

    /// These have to hold.
    fn follow(&mut self, tests: Vec<Test<'t>>) -> Result<(), OutOfMemory>
        ensures { OnOk result ((find : Finder) (descends : NameOf → NameOf → Bool) (rank : TypeDefTree → ℕ) → stands_at find descends rank self.new.waiting.items self.new.holds ≡ tested (found_in find descends rank tests.entry.items) (met_behind find descends rank self.old.waiting.items) (unmet_behind find descends rank self.old.waiting.items)) }
    {
        let mut tests = tests;
        tests.reverse();
        self.waiting.push(Waiting::Tests(tests))?;
        self.holds = true;
        Ok(())
    }

    /// What follows next, up to the first invariant.
    fn step<N: TypeNames>(
        &mut self,
        alloc: Global,
        waiting: Waiting<'t>,
        names: &'t N,
    ) -> Result<Option<(&'t TypeDef, Value)>, OutOfMemory>
        ensures { IfOk result (λ step. Stepped (N.found names.now) (N.descends names.now) (N.rank names.now) step (follows (N.found names.now) (N.descends names.now) (N.rank names.now) waiting.entry self.old.waiting.items self.old.holds) self.new.waiting.items self.new.holds) }
    {
        match waiting {
            Waiting::Tests(tests) => {
                if self.holds {
                    self.next_test(alloc, tests, names)
                } else {
                    Ok(None)
                }
            }
            Waiting::Others(scope, types, value) => {
                if self.holds {
                    Ok(None)
                } else {
                    self.try_types(alloc, scope, types, value, names)
                }
            }
        }
    }

    /// The next of these tests, which is their last.
    fn next_test<N: TypeNames>(
        &mut self,
        alloc: Global,
        tests: Vec<Test<'t>>,
        names: &'t N,
    ) -> Result<Option<(&'t TypeDef, Value)>, OutOfMemory>
        requires { self.old.holds ≡ true }
        ensures { IfOk result (λ step. Stepped (N.found names.now) (N.descends names.now) (N.rank names.now) step (tested (left_in (N.found names.now) (N.descends names.now) (N.rank names.now) tests.entry.items no_tests) (met_behind (N.found names.now) (N.descends names.now) (N.rank names.now) self.old.waiting.items) (unmet_behind (N.found names.now) (N.descends names.now) (N.rank names.now) self.old.waiting.items)) self.new.waiting.items self.new.holds) }
    {
        let mut tests = tests;
        match tests.pop() {
            Some(Test::Holds(definition, value)) => {
                self.waiting.push(Waiting::Tests(tests))?;
                Ok(Some((definition, value)))
            }
            Some(Test::OneHolds(scope, types, value)) => {
                self.waiting.push(Waiting::Tests(tests))?;
                self.try_types(alloc, scope, types, value, names)
            }
            None => Ok(None),
        }
    }

    /// One of these types has to take the value: the first is tried.
    fn try_types<N: TypeNames>(
        &mut self,
        alloc: Global,
        scope: Name,
        types: &'t [TypeExpr],
        value: Value,
        names: &'t N,
    ) -> Result<Option<(&'t TypeDef, Value)>, OutOfMemory>
        ensures { IfOk result (λ step. Stepped (N.found names.now) (N.descends names.now) (N.rank names.now) step (tried (choices_of (N.found names.now) (N.descends names.now) (N.rank names.now) value scope (type_trees (type_views types.now))) (met_behind (N.found names.now) (N.descends names.now) (N.rank names.now) self.old.waiting.items) (unmet_behind (N.found names.now) (N.descends names.now) (N.rank names.now) self.old.waiting.items)) self.new.waiting.items self.new.holds) }
    {
        let Some((declared, others)) = types.split_first() else {
            self.holds = false;
            return Ok(None);
        };
        match tests_of(alloc, &value, scope, declared, names)? {
            Some(tests) => {
                self.waiting.push(Waiting::Others(scope, others, value))?;
                self.follow(tests)?;
                Ok(None)
            }
            None => {
                self.waiting.push(Waiting::Others(scope, others, value))?;
                self.holds = false;
                Ok(None)
            }
        }
    }
}
