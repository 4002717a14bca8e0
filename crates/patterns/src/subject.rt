// What a pattern is matched with.

ghost use Rattle.std.specs.Prelude.{◌≡◌, ◌↔◌, IsTrue, option_map};
ghost use Rattle.std.specs.Borrow.{Bor};
ghost use Rattle.abstract_syntax.specs.Values.{sequence, value_trees};
ghost use Rattle.pattern_meaning.specs.Ways.{items_in, elements_in, components_in, entries_in};
ghost use Rattle.patterns.specs.Todos.{subject_tree};

use std::alloc::Global;
use vdm_kinds::OutOfMemory;
use vdm_values::{Node, Value};

/// A value, or the sequence of some items that stand together in one.
#[derive(Clone, Copy)]
pub(crate) enum Subject<'t> {
    Whole(&'t Value),
    Part(&'t [Value]),
}

impl<'t> Subject<'t> {
    /// Whether the two are the same value.
    #[tactic(auto, using(crate::proofs::Lists::comparing))]
    pub(crate) fn is(self, other: Subject<'_>) -> bool
        ensures { IsTrue result ↔ subject_tree self.entry ≡ subject_tree other.entry }
    {
        match (self, other) {
            (Subject::Whole(a), Subject::Whole(b)) => is_value(a, b),
            (Subject::Part(a), Subject::Part(b)) => are_values(a, b),
            (Subject::Whole(a), Subject::Part(b)) => is_sequence(a, b),
            (Subject::Part(a), Subject::Whole(b)) => is_sequence(b, a),
        }
    }

    /// The items of a sequence.
    #[tactic(auto, using(crate::proofs::Lists::parts))]
    pub(crate) fn items(self) -> Option<&'t [Value]>
        ensures { option_map (λ r. r.now) result ≡ items_in (subject_tree self.entry) }
    {
        match self {
            Subject::Part(items) => Some(items),
            Subject::Whole(value) => items_of(value),
        }
    }

    /// The elements of a set.
    #[tactic(auto, using(crate::proofs::Lists::parts))]
    pub(crate) fn elements(self) -> Option<&'t [Value]>
        ensures { option_map (λ r. r.now) result ≡ elements_in (subject_tree self.entry) }
    {
        match self {
            Subject::Part(_) => None,
            Subject::Whole(value) => elements_of(value),
        }
    }

    /// The parts of a tuple.
    #[tactic(auto, using(crate::proofs::Lists::parts))]
    pub(crate) fn components(self) -> Option<&'t [Value]>
        ensures { option_map (λ r. r.now) result ≡ components_in (subject_tree self.entry) }
    {
        match self {
            Subject::Part(_) => None,
            Subject::Whole(value) => components_of(value),
        }
    }

    /// The pairs of a map.
    #[tactic(auto, using(crate::proofs::Lists::parts))]
    pub(crate) fn entries(self) -> Option<&'t [(Value, Value)]>
        ensures { option_map (λ r. r.now) result ≡ entries_in (subject_tree self.entry) }
    {
        match self {
            Subject::Part(_) => None,
            Subject::Whole(value) => entries_of(value),
        }
    }
}

#[tactic(auto, using(abstract_syntax::specs::SameBy::sameness))]
fn is_value(a: &Value, b: &Value) -> bool
    ensures { IsTrue result ↔ a.now ≡ b.now }
{
    a == b
}

#[tactic(auto, using(abstract_syntax::specs::SameBy::sameness))]
fn are_values(a: &[Value], b: &[Value]) -> bool
    ensures { IsTrue result ↔ a.now ≡ b.now }
{
    a == b
}

#[tactic(auto, using(crate::proofs::Lists::comparing))]
fn is_sequence(value: &Value, items: &[Value]) -> bool
    ensures { IsTrue result ↔ value.now ≡ sequence (value_trees items.now) }
{
    match value.node() {
        Node::Seq(own) => are_values(own.as_slice(), items),
        _ => false,
    }
}

// The items of a sequence.
#[tactic(auto, using(crate::proofs::Lists::parts))]
fn items_of(value: &Value) -> Option<&[Value]>
    ensures { option_map (λ r. r.now) result ≡ items_in value.now }
{
    match value.node() {
        Node::Seq(items) => Some(items.as_slice()),
        _ => None,
    }
}

// The elements of a set.
#[tactic(auto, using(crate::proofs::Lists::parts))]
fn elements_of(value: &Value) -> Option<&[Value]>
    ensures { option_map (λ r. r.now) result ≡ elements_in value.now }
{
    match value.node() {
        Node::Set(items) => Some(items.as_slice()),
        _ => None,
    }
}

// The parts of a tuple.
#[tactic(auto, using(crate::proofs::Lists::parts))]
fn components_of(value: &Value) -> Option<&[Value]>
    ensures { option_map (λ r. r.now) result ≡ components_in value.now }
{
    match value.node() {
        Node::Tuple(items) => Some(items.as_slice()),
        _ => None,
    }
}

// The pairs of a map.
#[tactic(auto, using(crate::proofs::Lists::parts))]
fn entries_of(value: &Value) -> Option<&[(Value, Value)]>
    ensures { option_map (λ r. r.now) result ≡ entries_in value.now }
{
    match value.node() {
        Node::Map(pairs) => Some(pairs.as_slice()),
        _ => None,
    }
}
