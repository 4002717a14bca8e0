// A test of a shape that is going on.

ghost use Rattle.std.specs.Prelude.{◌≡◌, [], Some, None, IfOk, map};
ghost use Rattle.type_tree.specs.TypeView.{type_view, type_views, type_trees};
ghost use Rattle.expr_tree.specs.TypeDefView.{field_view, type_def_view};
ghost use Rattle.type_meaning.specs.Tests.{both, one_of};
ghost use Rattle.type_meaning.specs.Shapes.{tests_of, each, each_entry, each_factor, each_field, choices_of, own_test};
ghost use Rattle.conform.specs.Frames.{found_in, through, stands, both_tested, frame_then};

use crate::frame::Frame;
use crate::goal::{Goal, Next};
use crate::test::Test;
use expr_tree::{Field, TypeDef, TypeExpr, TypeNames};
use std::alloc::Global;
use std::mem;
use vdm_kinds::{Name, OutOfMemory};
use vdm_values::Value;

/// What was found so far that has to hold, and what is tested behind the part that is being tested, the innermost last.
#[derive(Drop)]
pub(crate) struct Collecting<'v, 't> {
    pub(crate) found: Vec<Test<'t>>,
    pub(crate) frames: Vec<Frame<'v, 't>>,
}

impl<'v, 't> Collecting<'v, 't> {
    /// Nothing was found so far, and nothing is left.
    pub(crate) fn new(alloc: Global) -> Collecting<'v, 't>
        ensures found { result.found.items ≡ [] }
        ensures frames { result.frames.items ≡ [] }
    {
        Collecting {
            found: Vec::new(alloc),
            frames: Vec::new(alloc),
        }
    }

    /// Values against one type.
    pub(crate) fn values<N: TypeNames>(
        &mut self,
        scope: Name,
        declared: &'t TypeExpr,
        values: &'v [Value],
        names: &N,
    ) -> Result<Next<'v, 't>, OutOfMemory>
        ensures { IfOk result (λ next. stands (N.found names.now) (N.descends names.now) (N.rank names.now) self.new.found.items self.new.frames.items next ≡ through (N.found names.now) (N.descends names.now) (N.rank names.now) self.old.frames.items (both (Some (found_in (N.found names.now) (N.descends names.now) (N.rank names.now) self.old.found.items)) (each scope (type_view declared.now) (map (tests_of (N.found names.now) (N.descends names.now) (N.rank names.now)) values.now)))) }
    {
        match values.split_first() {
            Some((value, rest)) => {
                self.frames.push(Frame::Values(scope, declared, rest))?;
                Ok(Next::Tests(Goal {
                    value,
                    scope,
                    declared,
                }))
            }
            None => Ok(Next::Holds),
        }
    }

    /// Entries, the key before the value, entry by entry.
    pub(crate) fn entries<N: TypeNames>(
        &mut self,
        scope: Name,
        key: &'t TypeExpr,
        declared: &'t TypeExpr,
        entries: &'v [(Value, Value)],
        names: &N,
    ) -> Result<Next<'v, 't>, OutOfMemory>
        ensures { IfOk result (λ next. stands (N.found names.now) (N.descends names.now) (N.rank names.now) self.new.found.items self.new.frames.items next ≡ through (N.found names.now) (N.descends names.now) (N.rank names.now) self.old.frames.items (both (Some (found_in (N.found names.now) (N.descends names.now) (N.rank names.now) self.old.found.items)) (each_entry scope (type_view key.now) (type_view declared.now) (map (both_tested (N.found names.now) (N.descends names.now) (N.rank names.now)) entries.now)))) }
    {
        match entries.split_first() {
            Some((entry, rest)) => {
                self.frames
                    .push(Frame::Entry(scope, key, declared, &entry.1, rest))?;
                Ok(Next::Tests(Goal {
                    value: &entry.0,
                    scope,
                    declared: key,
                }))
            }
            None => Ok(Next::Holds),
        }
    }

    /// The value of an entry, and then further entries.
    pub(crate) fn entry<N: TypeNames>(
        &mut self,
        scope: Name,
        key: &'t TypeExpr,
        declared: &'t TypeExpr,
        value: &'v Value,
        entries: &'v [(Value, Value)],
        names: &N,
    ) -> Result<Next<'v, 't>, OutOfMemory>
        ensures { IfOk result (λ next. stands (N.found names.now) (N.descends names.now) (N.rank names.now) self.new.found.items self.new.frames.items next ≡ through (N.found names.now) (N.descends names.now) (N.rank names.now) self.old.frames.items (both (Some (found_in (N.found names.now) (N.descends names.now) (N.rank names.now) self.old.found.items)) (both (tests_of (N.found names.now) (N.descends names.now) (N.rank names.now) value.now scope (type_view declared.now)) (each_entry scope (type_view key.now) (type_view declared.now) (map (both_tested (N.found names.now) (N.descends names.now) (N.rank names.now)) entries.now))))) }
    {
        self.frames
            .push(Frame::Entries(scope, key, declared, entries))?;
        Ok(Next::Tests(Goal {
            value,
            scope,
            declared,
        }))
    }

    /// As many values as types, each against its own.
    pub(crate) fn factors<N: TypeNames>(
        &mut self,
        scope: Name,
        types: &'t [TypeExpr],
        values: &'v [Value],
        names: &N,
    ) -> Result<Next<'v, 't>, OutOfMemory>
        ensures { IfOk result (λ next. stands (N.found names.now) (N.descends names.now) (N.rank names.now) self.new.found.items self.new.frames.items next ≡ through (N.found names.now) (N.descends names.now) (N.rank names.now) self.old.frames.items (both (Some (found_in (N.found names.now) (N.descends names.now) (N.rank names.now) self.old.found.items)) (each_factor scope (type_trees (type_views types.now)) (map (tests_of (N.found names.now) (N.descends names.now) (N.rank names.now)) values.now)))) }
    {
        match (types.split_first(), values.split_first()) {
            (Some((declared, types)), Some((value, values))) => {
                self.frames.push(Frame::Factors(scope, types, values))?;
                Ok(Next::Tests(Goal {
                    value,
                    scope,
                    declared,
                }))
            }
            (None, None) => Ok(Next::Holds),
            (Some(_), None) | (None, Some(_)) => Ok(Next::Fails),
        }
    }

    /// As many values as fields, each against the type of its own.
    pub(crate) fn fields<N: TypeNames>(
        &mut self,
        scope: Name,
        fields: &'t [Field],
        values: &'v [Value],
        names: &N,
    ) -> Result<Next<'v, 't>, OutOfMemory>
        ensures { IfOk result (λ next. stands (N.found names.now) (N.descends names.now) (N.rank names.now) self.new.found.items self.new.frames.items next ≡ through (N.found names.now) (N.descends names.now) (N.rank names.now) self.old.frames.items (both (Some (found_in (N.found names.now) (N.descends names.now) (N.rank names.now) self.old.found.items)) (each_field scope (map field_view fields.now) (map (tests_of (N.found names.now) (N.descends names.now) (N.rank names.now)) values.now)))) }
    {
        match (fields.split_first(), values.split_first()) {
            (Some((field, fields)), Some((value, values))) => {
                self.frames.push(Frame::Fields(scope, fields, values))?;
                Ok(Next::Tests(Goal {
                    value,
                    scope,
                    declared: &field.declared,
                }))
            }
            (None, None) => Ok(Next::Holds),
            (Some(_), None) | (None, Some(_)) => Ok(Next::Fails),
        }
    }

    /// The types of a union, in the order in which they are tried.
    pub(crate) fn alternatives<N: TypeNames>(
        &mut self,
        alloc: Global,
        scope: Name,
        types: &'t [TypeExpr],
        value: &'v Value,
        names: &N,
    ) -> Result<Next<'v, 't>, OutOfMemory>
        ensures { IfOk result (λ next. stands (N.found names.now) (N.descends names.now) (N.rank names.now) self.new.found.items self.new.frames.items next ≡ through (N.found names.now) (N.descends names.now) (N.rank names.now) self.old.frames.items (both (Some (found_in (N.found names.now) (N.descends names.now) (N.rank names.now) self.old.found.items)) (one_of (choices_of (N.found names.now) (N.descends names.now) (N.rank names.now) value.now scope (type_trees (type_views types.now)))))) }
    {
        match types.split_first() {
            Some((declared, _)) => {
                let before = mem::replace(&mut self.found, Vec::new(alloc));
                self.frames
                    .push(Frame::Alternatives(before, scope, types, value))?;
                Ok(Next::Tests(Goal {
                    value,
                    scope,
                    declared,
                }))
            }
            None => Ok(Next::Fails),
        }
    }
}
