// What is still to be matched, as a stack.

ghost use Rattle.std.specs.Prelude.{◌≡◌, ◌≤◌, ◌∷◌, [], length, IfOk, OnOk, MatchOption};
ghost use Rattle.patterns.specs.Todos.{at, patterns_at, to_match_each, todo_of};
ghost use Rattle.patterns.specs.Search.{to_come};

use crate::subject::Subject;
use crate::todo::Todo;
use expr_tree::Pattern;
use std::alloc::Global;
use vdm_kinds::OutOfMemory;
use vdm_values::Value;

/// What is still to be matched, in text order; what comes next is last. It is never longer than one pattern is deep, one, and the
/// patterns behind that one.
#[derive(Drop)]
pub(crate) struct Work<'t> {
    todos: Vec<Todo<'t>>,
}

impl<'t> Work<'t> {
    /// Nothing is to be matched.
    #[tactic(auto, unfolding(crate::specs::Search::to_come))]
    pub(crate) fn new(alloc: Global) -> Work<'t>
        ensures { to_come result ≡ [] }
    {
        Work {
            todos: Vec::new(alloc),
        }
    }

    /// Each pattern with the value at its place, the first one first.
    pub(crate) fn of_pairs(
        alloc: Global,
        patterns: &[&'t Pattern],
        values: &[&'t Value],
    ) -> Result<Work<'t>, OutOfMemory>
        requires { length patterns.now ≤ length values.now }
        ensures { IfOk result (λ w. to_come w ≡ to_match_each (patterns_at patterns.now) (at values.now)) }
    {
        let mut work = Work::new(alloc);
        for index in (0..patterns.len()).rev() {
            work.push(Todo::Match(patterns[index], Subject::Whole(values[index])))?;
        }
        Ok(work)
    }

    /// This comes next.
    #[tactic(auto, unfolding(crate::specs::Search::to_come))]
    pub(crate) fn push(&mut self, todo: Todo<'t>) -> Result<(), OutOfMemory>
        ensures { OnOk result (to_come self.new ≡ todo_of todo.entry ∷ to_come self.old) }
    {
        Ok(self.todos.push(todo)?)
    }

    /// What comes next, taken out.
    #[tactic(auto, unfolding(crate::specs::Search::to_come))]
    pub(crate) fn pop(&mut self) -> Option<Todo<'t>>
        ensures { MatchOption result (to_come self.old ≡ []) (λ t. to_come self.old ≡ todo_of t ∷ to_come self.new) }
    {
        self.todos.pop()
    }

    /// The same work once more.
    #[tactic(auto, unfolding(crate::specs::Search::to_come))]
    pub(crate) fn copy(&self, alloc: Global) -> Result<Work<'t>, OutOfMemory>
        ensures { IfOk result (λ w. to_come w ≡ to_come self.now) }
    {
        let mut todos = Vec::with_capacity(alloc, self.todos.len())?;
        for todo in &self.todos {
            todos.push(copy_todo(alloc, todo)?)?;
        }
        Ok(Work { todos })
    }
}

fn copy_todo<'t>(alloc: Global, todo: &Todo<'t>) -> Result<Todo<'t>, OutOfMemory>
    ensures { IfOk result (λ t. todo_of t ≡ todo_of todo.now) }
{
    match todo {
        Todo::Match(pattern, subject) => Ok(Todo::Match(pattern, *subject)),
        Todo::Items(patterns, items) => Ok(Todo::Items(patterns, items)),
        Todo::Choose(patterns, left, from) => {
            Ok(Todo::Choose(patterns, copy_list(alloc, left.as_slice())?, *from))
        }
        Todo::ChoosePair(patterns, left, from) => Ok(Todo::ChoosePair(
            patterns,
            copy_pairs(alloc, left.as_slice())?,
            *from,
        )),
        Todo::Split(patterns, items, from) => Ok(Todo::Split(patterns, items, *from)),
    }
}

fn copy_list<'t>(alloc: Global, values: &[&'t Value]) -> Result<Vec<&'t Value>, OutOfMemory>
    ensures { IfOk result (λ copies. copies.items ≡ values.now) }
{
    let mut copies = Vec::with_capacity(alloc, values.len())?;
    for value in values {
        copies.push(*value)?;
    }
    Ok(copies)
}

fn copy_pairs<'t>(
    alloc: Global,
    pairs: &[&'t (Value, Value)],
) -> Result<Vec<&'t (Value, Value)>, OutOfMemory>
    ensures { IfOk result (λ copies. copies.items ≡ pairs.now) }
{
    let mut copies = Vec::with_capacity(alloc, pairs.len())?;
    for pair in pairs {
        copies.push(*pair)?;
    }
    Ok(copies)
}
