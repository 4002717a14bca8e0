// What is done with what came of a part.

ghost use Rattle.std.specs.Prelude.{◌≡◌, Some, None, IfOk};
ghost use Rattle.expr_tree.specs.TypeDefView.{type_def_view};
ghost use Rattle.type_tree.specs.TypeView.{type_views, type_trees};
ghost use Rattle.type_meaning.specs.Shapes.{with_own};
ghost use Rattle.conform.specs.Frames.{found_in, through, stands, frame_then, chosen};

use crate::collecting::Collecting;
use crate::frame::Frame;
use crate::goal::Next;
use crate::test::Test;
use expr_tree::{TypeDef, TypeExpr, TypeNames};
use std::alloc::Global;
use std::mem;
use vdm_kinds::{Name, OutOfMemory};
use vdm_values::Value;

impl<'v, 't> Collecting<'v, 't> {
    /// The part has its shape.
    pub(crate) fn held<N: TypeNames>(
        &mut self,
        alloc: Global,
        frame: Frame<'v, 't>,
        names: &N,
    ) -> Result<Next<'v, 't>, OutOfMemory>
        ensures { IfOk result (λ next. stands (N.found names.now) (N.descends names.now) (N.rank names.now) self.new.found.items self.new.frames.items next ≡ through (N.found names.now) (N.descends names.now) (N.rank names.now) self.old.frames.items (frame_then (N.found names.now) (N.descends names.now) (N.rank names.now) frame.entry (Some (found_in (N.found names.now) (N.descends names.now) (N.rank names.now) self.old.found.items)))) }
    {
        match frame {
            Frame::Values(scope, declared, values) => self.values(scope, declared, values, names),
            Frame::Entries(scope, key, declared, entries) => {
                self.entries(scope, key, declared, entries, names)
            }
            Frame::Entry(scope, key, declared, value, entries) => {
                self.entry(scope, key, declared, value, entries, names)
            }
            Frame::Factors(scope, types, values) => self.factors(scope, types, values, names),
            Frame::Fields(scope, fields, values) => self.fields(scope, fields, values, names),
            Frame::Own(definition, value) => self.own(alloc, definition, value, names),
            Frame::Alternatives(before, scope, types, value) => {
                self.chosen(alloc, before, scope, types, value, names)
            }
        }
    }

    /// The part has another shape.
    pub(crate) fn failed<N: TypeNames>(
        &mut self,
        alloc: Global,
        frame: Frame<'v, 't>,
        names: &N,
    ) -> Result<Next<'v, 't>, OutOfMemory>
        ensures { IfOk result (λ next. stands (N.found names.now) (N.descends names.now) (N.rank names.now) self.new.found.items self.new.frames.items next ≡ through (N.found names.now) (N.descends names.now) (N.rank names.now) self.old.frames.items (frame_then (N.found names.now) (N.descends names.now) (N.rank names.now) frame.entry None)) }
    {
        match frame {
            Frame::Values(_, _, _) => Ok(Next::Fails),
            Frame::Entries(_, _, _, _) => Ok(Next::Fails),
            Frame::Entry(_, _, _, _, _) => Ok(Next::Fails),
            Frame::Factors(_, _, _) => Ok(Next::Fails),
            Frame::Fields(_, _, _) => Ok(Next::Fails),
            Frame::Own(_, _) => Ok(Next::Fails),
            Frame::Alternatives(before, scope, types, value) => {
                self.missed(alloc, before, scope, types, value, names)
            }
        }
    }

    /// The type's own invariant, where it has one, stands behind what was found.
    fn own<N: TypeNames>(
        &mut self,
        alloc: Global,
        definition: &'t TypeDef,
        value: &'v Value,
        names: &N,
    ) -> Result<Next<'v, 't>, OutOfMemory>
        ensures { IfOk result (λ next. stands (N.found names.now) (N.descends names.now) (N.rank names.now) self.new.found.items self.new.frames.items next ≡ through (N.found names.now) (N.descends names.now) (N.rank names.now) self.old.frames.items (with_own (N.found names.now) (N.descends names.now) (type_def_view definition.now) value.now (Some (found_in (N.found names.now) (N.descends names.now) (N.rank names.now) self.old.found.items)))) }
    {
        match &definition.invariant {
            Some(_) => {
                let value = value.copy(alloc)?;
                self.found.push(Test::Holds(definition, value))?;
                Ok(Next::Holds)
            }
            None => Ok(Next::Holds),
        }
    }

    /// A union whose first type has the shape of the value. Where something has to hold of it for that, a later one may take it.
    fn chosen<N: TypeNames>(
        &mut self,
        alloc: Global,
        before: Vec<Test<'t>>,
        scope: Name,
        types: &'t [TypeExpr],
        value: &'v Value,
        names: &N,
    ) -> Result<Next<'v, 't>, OutOfMemory>
        ensures { IfOk result (λ next. stands (N.found names.now) (N.descends names.now) (N.rank names.now) self.new.found.items self.new.frames.items next ≡ through (N.found names.now) (N.descends names.now) (N.rank names.now) self.old.frames.items (chosen (N.found names.now) (N.descends names.now) (N.rank names.now) (found_in (N.found names.now) (N.descends names.now) (N.rank names.now) before.entry.items) scope (type_trees (type_views types.now)) value.now (Some (found_in (N.found names.now) (N.descends names.now) (N.rank names.now) self.old.found.items)))) }
    {
        let found = mem::replace(&mut self.found, before);
        if found.len() == 0 {
            return Ok(Next::Holds);
        }
        let value = value.copy(alloc)?;
        self.found.push(Test::OneHolds(scope, types, value))?;
        Ok(Next::Holds)
    }

    /// A union whose first type has another shape: the others are tried.
    fn missed<N: TypeNames>(
        &mut self,
        alloc: Global,
        before: Vec<Test<'t>>,
        scope: Name,
        types: &'t [TypeExpr],
        value: &'v Value,
        names: &N,
    ) -> Result<Next<'v, 't>, OutOfMemory>
        ensures { IfOk result (λ next. stands (N.found names.now) (N.descends names.now) (N.rank names.now) self.new.found.items self.new.frames.items next ≡ through (N.found names.now) (N.descends names.now) (N.rank names.now) self.old.frames.items (chosen (N.found names.now) (N.descends names.now) (N.rank names.now) (found_in (N.found names.now) (N.descends names.now) (N.rank names.now) before.entry.items) scope (type_trees (type_views types.now)) value.now None)) }
    {
        self.found = before;
        match types.split_first() {
            Some((_, others)) => self.alternatives(alloc, scope, others, value, names),
            None => Ok(Next::Fails),
        }
    }
}
