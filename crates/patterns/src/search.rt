// A search for the first binding.

ghost use Rattle.std.specs.Prelude.{◌≡◌, ◌≤◌, ◌∷◌, true, take, IfOk, OnOk, drop, length, map, Option};
ghost use Rattle.abstract_syntax.specs.Values.{sequence, value_trees};
ghost use Rattle.vdm_kinds.specs.declared.name_at.TypeName.{TypeName};
ghost use Rattle.pattern_meaning.specs.Bindings.{first_of};
ghost use Rattle.pattern_meaning.specs.RecordTypes.{RecordType, stands_for};
ghost use Rattle.pattern_meaning.specs.Ways.{is_next, where_true};
ghost use Rattle.patterns.specs.Todos.{all_ways, next_ways, at, patterns_at, subject_tree, todo_of, to_match_each, to_match_items, to_choose, to_choose_pair, to_match, to_split};
ghost use Rattle.patterns.specs.Search.{to_come, binding_of, choices_of, IsNested, Goes, GoesBack, Waits, Ends, Begins, after, found, outcome};
ghost use Rattle.expr_tree.specs.View.{pattern_view, pattern_views, pattern_trees, maplet_pattern_view, maplet_pattern_trees};

use crate::bound::Bound;
use crate::choosing::{both, greater, is_over, pick, pick_pair, without, without_pair};
use crate::lengths::fronts;
use crate::names::Names;
use crate::open::open;
use crate::others::{Other, Others};
use crate::subject::Subject;
use crate::todo::{Next, Todo};
use crate::work::Work;
use expr_tree::{MapletPattern, Pattern, TypeNames};
use std::alloc::Global;
use vdm_kinds::{Name, OutOfMemory};
use vdm_values::Value;

/// A search: what is to be matched, the values that are given for it, the names that are bound, and other choices, of which the
/// last one is tried first.
#[derive(Drop)]
pub(crate) struct Search<'t> {
    work: Work<'t>,
    given: &'t [Value],
    names: Names<'t>,
    others: Others<'t>,
}

/// How a turn of a search ends.
#[derive(Clone, Copy)]
pub(crate) enum Turn {
    /// Nothing is left to be matched: what is bound is the first binding.
    Found,
    /// There is no binding.
    Nothing,
    /// It goes on.
    On,
}

impl<'t> Search<'t> {
    /// A search that begins, with the values of the patterns' bracketed expressions.
    pub(crate) fn new(
        alloc: Global,
        patterns: &[&'t Pattern],
        values: &[&'t Value],
        given: &'t [Value],
    ) -> Result<Search<'t>, OutOfMemory>
        requires { length patterns.now ≤ length values.now }
        ensures { IfOk result (λ s. Begins (to_match_each (patterns_at patterns.now) (at values.now)) given.now s) }
    {
        Ok(Search {
            work: Work::of_pairs(alloc, patterns, values)?,
            given,
            names: Names::new(alloc),
            others: Others::new(alloc),
        })
    }

    /// Goes on until it has the first binding, or there is none.
    pub(crate) fn run<N: TypeNames>(
        &mut self,
        alloc: Global,
        scope: Name,
        names: &N,
    ) -> Result<bool, OutOfMemory>
        requires { IsNested (length (binding_of self.old.names)) (choices_of self.old) }
        ensures { IfOk result (λ any. outcome any self.new ≡ first_of (found (stands_for (N.found names.now) (N.rank names.now) scope) self.old)) }
    {
        for step in 0..u64::MAX {
            match self.turn(alloc, scope, names)? {
                Turn::Found => return Ok(true),
                Turn::Nothing => return Ok(false),
                Turn::On => {}
            }
        }
        Err(OutOfMemory)
    }

    /// One turn: what comes next is matched, or the choice that was made last is left for another.
    pub(crate) fn turn<N: TypeNames>(
        &mut self,
        alloc: Global,
        scope: Name,
        names: &N,
    ) -> Result<Turn, OutOfMemory>
        requires { IsNested (length (binding_of self.old.names)) (choices_of self.old) }
        ensures { IfOk result (λ turn. Ends (stands_for (N.found names.now) (N.rank names.now) scope) (found (stands_for (N.found names.now) (N.rank names.now) scope) self.old) turn self.new) }
    {
        let Some(todo) = self.work.pop() else {
            return Ok(Turn::Found);
        };
        let on = self.follow(alloc, todo, scope, names)?;
        Ok(self.end_turn(on))
    }

    // Goes on, or goes back where what was tried came to nothing.
    fn end_turn(&mut self, on: bool) -> Turn
        requires { IsNested (length (binding_of self.old.names)) (choices_of self.old) }
        ensures { (types : TypeName → Option RecordType) → Ends types (after types on self.old) result self.new }
    {
        if on {
            return Turn::On;
        }
        if self.back() { Turn::On } else { Turn::Nothing }
    }

    // Matches what came next.
    fn follow<N: TypeNames>(
        &mut self,
        alloc: Global,
        todo: Todo<'t>,
        scope: Name,
        names: &N,
    ) -> Result<bool, OutOfMemory>
        requires { IsNested (length (binding_of self.old.names)) (choices_of self.old) }
        ensures { IfOk result (λ on. Goes (stands_for (N.found names.now) (N.rank names.now) scope) (all_ways (stands_for (N.found names.now) (N.rank names.now) scope) self.old.given.now (todo_of todo.entry ∷ to_come self.old.work)) on self.old self.new) }
    {
        match todo {
            Todo::Match(pattern, subject) => {
                let next = open(alloc, pattern, subject, scope, names)?;
                Ok(self.take(next)?)
            }
            Todo::Items(patterns, items) => Ok(self.items(patterns, items)?),
            Todo::Choose(patterns, left, from) => Ok(self.choose(alloc, patterns, left, from)?),
            Todo::ChoosePair(patterns, left, from) => {
                Ok(self.choose_pair(alloc, patterns, left, from)?)
            }
            Todo::Split(patterns, items, from) => Ok(self.split(alloc, patterns, items, from)?),
        }
    }

    // Does what a pattern asks for.
    fn take(&mut self, next: Next<'t>) -> Result<bool, OutOfMemory>
        requires { IsNested (length (binding_of self.old.names)) (choices_of self.old) }
        ensures { (types : TypeName → Option RecordType) → IfOk result (λ on. Goes types (next_ways types next.entry self.old.given.now (to_come self.old.work)) on self.old self.new) }
    {
        match next {
            Next::Fails => Ok(false),
            Next::Holds => Ok(true),
            Next::Compares(subject) => Ok(self.compare(subject)),
            Next::Binds(name, subject) => Ok(self.bind(name, subject)?),
            Next::Becomes(todo) => {
                self.work.push(todo)?;
                Ok(true)
            }
        }
    }

    // Whether the next value that is given is this one.
    fn compare(&mut self, subject: Subject<'t>) -> bool
        requires { IsNested (length (binding_of self.old.names)) (choices_of self.old) }
        ensures { (types : TypeName → Option RecordType) → Goes types (where_true (is_next self.old.given.now (subject_tree subject.entry)) (all_ways types (drop 1 self.old.given.now) (to_come self.old.work))) result self.old self.new }
    {
        let [value, given @ ..] = self.given else {
            return false;
        };
        self.given = given;
        subject.is(Subject::Whole(value))
    }

    // The name stands for the subject, unless it stands for another value.
    fn bind(&mut self, name: Name, subject: Subject<'t>) -> Result<bool, OutOfMemory>
        requires { IsNested (length (binding_of self.old.names)) (choices_of self.old) }
        ensures { (types : TypeName → Option RecordType) → IfOk result (λ on. Goes types (map (λ way. (name, subject_tree subject.entry) ∷ way) (all_ways types self.old.given.now (to_come self.old.work))) on self.old self.new) }
    {
        match self.names.find(name) {
            Some(found) => Ok(found.is(subject)),
            None => {
                self.names.push(name, subject)?;
                Ok(true)
            }
        }
    }

    // The first of the items with the first of the patterns, then the others.
    fn items(&mut self, patterns: &'t [Pattern], items: &'t [Value]) -> Result<bool, OutOfMemory>
        requires { IsNested (length (binding_of self.old.names)) (choices_of self.old) }
        ensures { (types : TypeName → Option RecordType) → IfOk result (λ on. Goes types (all_ways types self.old.given.now (to_match_items (pattern_trees (pattern_views patterns.now)) items.now ∷ to_come self.old.work)) on self.old self.new) }
    {
        let [pattern, patterns @ ..] = patterns else {
            return Ok(true);
        };
        let [item, items @ ..] = items else {
            return Ok(false);
        };
        self.work.push(Todo::Items(patterns, items))?;
        self.work.push(Todo::Match(pattern, Subject::Whole(item)))?;
        Ok(true)
    }

    // The first of the patterns takes an element, and the others wait.
    fn choose(
        &mut self,
        alloc: Global,
        patterns: &'t [Pattern],
        left: Vec<&'t Value>,
        from: usize,
    ) -> Result<bool, OutOfMemory>
        requires { IsNested (length (binding_of self.old.names)) (choices_of self.old) }
        ensures { (types : TypeName → Option RecordType) → IfOk result (λ on. Goes types (all_ways types self.old.given.now (to_choose (pattern_trees (pattern_views patterns.now)) (at left.entry.items) from ∷ to_come self.old.work)) on self.old self.new) }
    {
        let [pattern, others @ ..] = patterns else {
            return Ok(true);
        };
        let Some(element) = pick(left.as_slice(), from) else {
            return Ok(false);
        };
        let rest = without(alloc, left.as_slice(), from)?;
        self.wait(alloc, Todo::Choose(patterns, left, from + 1))?;
        self.work.push(Todo::Choose(others, rest, 0))?;
        self.work
            .push(Todo::Match(pattern, Subject::Whole(element)))?;
        Ok(true)
    }

    // The first of the patterns takes a pair, and the others wait.
    fn choose_pair(
        &mut self,
        alloc: Global,
        patterns: &'t [MapletPattern],
        left: Vec<&'t (Value, Value)>,
        from: usize,
    ) -> Result<bool, OutOfMemory>
        requires { IsNested (length (binding_of self.old.names)) (choices_of self.old) }
        ensures { (types : TypeName → Option RecordType) → IfOk result (λ on. Goes types (all_ways types self.old.given.now (to_choose_pair (maplet_pattern_trees (map maplet_pattern_view patterns.now)) (at left.entry.items) from ∷ to_come self.old.work)) on self.old self.new) }
    {
        let [pattern, others @ ..] = patterns else {
            return Ok(true);
        };
        let Some(pair) = pick_pair(left.as_slice(), from) else {
            return Ok(false);
        };
        let rest = without_pair(alloc, left.as_slice(), from)?;
        let (key, value) = both(pattern);
        self.wait(alloc, Todo::ChoosePair(patterns, left, from + 1))?;
        self.work.push(Todo::ChoosePair(others, rest, 0))?;
        self.work.push(Todo::Match(value, Subject::Whole(&pair.1)))?;
        self.work.push(Todo::Match(key, Subject::Whole(&pair.0)))?;
        Ok(true)
    }

    // The first of the patterns takes a front, and longer ones wait.
    fn split(
        &mut self,
        alloc: Global,
        patterns: &'t [Pattern],
        items: &'t [Value],
        from: usize,
    ) -> Result<bool, OutOfMemory>
        requires { IsNested (length (binding_of self.old.names)) (choices_of self.old) }
        ensures { (types : TypeName → Option RecordType) → IfOk result (λ on. Goes types (all_ways types self.old.given.now (to_split (pattern_trees (pattern_views patterns.now)) items.now from ∷ to_come self.old.work)) on self.old self.new) }
    {
        let [pattern, others @ ..] = patterns else {
            return Ok(is_over(items));
        };
        let Some((least, most)) = fronts(pattern, others, items.len()) else {
            return Ok(false);
        };
        let front = greater(from, least);
        if front > most {
            return Ok(false);
        }
        if front == most {
            return Ok(self.part(pattern, others, items, front)?);
        }
        self.wait(alloc, Todo::Split(patterns, items, front + 1))?;
        Ok(self.part(pattern, others, items, front)?)
    }

    // The pattern takes a front of so many items, and leaves the rest to the others.
    fn part(
        &mut self,
        pattern: &'t Pattern,
        others: &'t [Pattern],
        items: &'t [Value],
        front: usize,
    ) -> Result<bool, OutOfMemory>
        requires nested { IsNested (length (binding_of self.old.names)) (choices_of self.old) }
        requires within { front ≤ length items.now }
        ensures { (types : TypeName → Option RecordType) → IfOk result (λ on. (on ≡ true) × Goes types (all_ways types self.old.given.now (to_match (pattern_view pattern.now) (sequence (value_trees (take front items.now))) ∷ to_split (pattern_trees (pattern_views others.now)) (drop front items.now) 0 ∷ to_come self.old.work)) true self.old self.new) }
    {
        let (taken, rest) = items.split_at(front);
        self.work.push(Todo::Split(others, rest, 0))?;
        self.work.push(Todo::Match(pattern, Subject::Part(taken)))?;
        Ok(true)
    }

    // Another choice waits.
    fn wait(&mut self, alloc: Global, todo: Todo<'t>) -> Result<(), OutOfMemory>
        ensures { OnOk result (Waits (todo_of todo.entry) self.old self.new) }
    {
        let mut work = self.work.copy(alloc)?;
        work.push(todo)?;
        let given = self.given;
        let kept = self.names.len();
        self.others.push(work, given, kept)?;
        Ok(())
    }

    // Goes on with the choice that waited last, if one does.
    fn back(&mut self) -> bool
        requires { IsNested (length (binding_of self.old.names)) (choices_of self.old) }
        ensures { (types : TypeName → Option RecordType) → GoesBack types result self.old self.new }
    {
        let Some(Other { work, given, kept }) = self.others.pop() else {
            return false;
        };
        self.names.cut(kept);
        self.work = work;
        self.given = given;
        true
    }

    /// The names that are bound.
    pub(crate) fn bound(&self) -> &[Bound<'t>]
        ensures { map (λ (b : Bound). (b.name, subject_tree b.subject)) result.now ≡ binding_of self.now.names }
    {
        self.names.as_slice()
    }
}
