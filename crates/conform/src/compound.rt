// Types of values that have parts.

ghost use Rattle.std.specs.Prelude.{◌≡◌, Some, None, IfOk, option_map};
ghost use Rattle.expr_tree.specs.TypeDefView.{field_view};
ghost use Rattle.std.specs.Prelude.{map};
ghost use Rattle.type_tree.specs.TypeView.{type_view, type_views, type_trees};
ghost use Rattle.type_meaning.specs.Tests.{both};
ghost use Rattle.type_meaning.specs.Shapes.{each, each_entry, each_factor, each_field, has_distinct_values};
ghost use Rattle.conform.specs.Frames.{found_in, through, stands, on_list, on_some, on_pairs, where_true, entries_in};

use crate::collecting::Collecting;
use crate::goal::Next;
use crate::leaves::has_distinct_values;
use crate::parts::entries;
use expr_tree::{Field, TypeExpr, TypeNames};
use std::alloc::Global;
use vdm_kinds::{Name, OutOfMemory};
use vdm_values::Value;

impl<'v, 't> Collecting<'v, 't> {
    /// Each value against one type; without values the shape is another one.
    pub(crate) fn each_value<N: TypeNames>(
        &mut self,
        scope: Name,
        declared: &'t TypeExpr,
        values: Option<&'v [Value]>,
        names: &N,
    ) -> Result<Next<'v, 't>, OutOfMemory>
        ensures { IfOk result (λ next. stands (N.found names.now) (N.descends names.now) (N.rank names.now) self.new.found.items self.new.frames.items next ≡ through (N.found names.now) (N.descends names.now) (N.rank names.now) self.old.frames.items (both (Some (found_in (N.found names.now) (N.descends names.now) (N.rank names.now) self.old.found.items)) (on_list (N.found names.now) (N.descends names.now) (N.rank names.now) (option_map (λ r. r.now) values.entry) (each scope (type_view declared.now))))) }
    {
        match values {
            Some(values) => self.values(scope, declared, values, names),
            None => Ok(Next::Fails),
        }
    }

    /// ... of which there has to be one.
    pub(crate) fn each_of_some<N: TypeNames>(
        &mut self,
        scope: Name,
        declared: &'t TypeExpr,
        values: Option<&'v [Value]>,
        names: &N,
    ) -> Result<Next<'v, 't>, OutOfMemory>
        ensures { IfOk result (λ next. stands (N.found names.now) (N.descends names.now) (N.rank names.now) self.new.found.items self.new.frames.items next ≡ through (N.found names.now) (N.descends names.now) (N.rank names.now) self.old.frames.items (both (Some (found_in (N.found names.now) (N.descends names.now) (N.rank names.now) self.old.found.items)) (on_some (N.found names.now) (N.descends names.now) (N.rank names.now) (option_map (λ r. r.now) values.entry) (each scope (type_view declared.now))))) }
    {
        match values {
            Some(values) => self.some_values(scope, declared, values, names),
            None => Ok(Next::Fails),
        }
    }

    fn some_values<N: TypeNames>(
        &mut self,
        scope: Name,
        declared: &'t TypeExpr,
        values: &'v [Value],
        names: &N,
    ) -> Result<Next<'v, 't>, OutOfMemory>
        ensures { IfOk result (λ next. stands (N.found names.now) (N.descends names.now) (N.rank names.now) self.new.found.items self.new.frames.items next ≡ through (N.found names.now) (N.descends names.now) (N.rank names.now) self.old.frames.items (both (Some (found_in (N.found names.now) (N.descends names.now) (N.rank names.now) self.old.found.items)) (on_some (N.found names.now) (N.descends names.now) (N.rank names.now) (Some values.now) (each scope (type_view declared.now))))) }
    {
        if values.len() == 0 {
            Ok(Next::Fails)
        } else {
            self.values(scope, declared, values, names)
        }
    }

    /// Each entry of a map.
    pub(crate) fn each_entry<N: TypeNames>(
        &mut self,
        scope: Name,
        key: &'t TypeExpr,
        declared: &'t TypeExpr,
        entries: Option<&'v [(Value, Value)]>,
        names: &N,
    ) -> Result<Next<'v, 't>, OutOfMemory>
        ensures { IfOk result (λ next. stands (N.found names.now) (N.descends names.now) (N.rank names.now) self.new.found.items self.new.frames.items next ≡ through (N.found names.now) (N.descends names.now) (N.rank names.now) self.old.frames.items (both (Some (found_in (N.found names.now) (N.descends names.now) (N.rank names.now) self.old.found.items)) (on_pairs (N.found names.now) (N.descends names.now) (N.rank names.now) (option_map (λ r. r.now) entries.entry) (each_entry scope (type_view key.now) (type_view declared.now))))) }
    {
        match entries {
            Some(entries) => self.entries(scope, key, declared, entries, names),
            None => Ok(Next::Fails),
        }
    }

    /// ... no two keys of which have one value.
    pub(crate) fn each_distinct<N: TypeNames>(
        &mut self,
        alloc: Global,
        scope: Name,
        key: &'t TypeExpr,
        declared: &'t TypeExpr,
        value: &'v Value,
        names: &N,
    ) -> Result<Next<'v, 't>, OutOfMemory>
        ensures { IfOk result (λ next. stands (N.found names.now) (N.descends names.now) (N.rank names.now) self.new.found.items self.new.frames.items next ≡ through (N.found names.now) (N.descends names.now) (N.rank names.now) self.old.frames.items (both (Some (found_in (N.found names.now) (N.descends names.now) (N.rank names.now) self.old.found.items)) (where_true (has_distinct_values value.now) (on_pairs (N.found names.now) (N.descends names.now) (N.rank names.now) (entries_in value.now) (each_entry scope (type_view key.now) (type_view declared.now)))))) }
    {
        if has_distinct_values(alloc, value)? {
            self.each_entry(scope, key, declared, entries(value), names)
        } else {
            Ok(Next::Fails)
        }
    }

    /// Each part of a tuple against its factor.
    pub(crate) fn each_factor<N: TypeNames>(
        &mut self,
        scope: Name,
        types: &'t [TypeExpr],
        values: Option<&'v [Value]>,
        names: &N,
    ) -> Result<Next<'v, 't>, OutOfMemory>
        ensures { IfOk result (λ next. stands (N.found names.now) (N.descends names.now) (N.rank names.now) self.new.found.items self.new.frames.items next ≡ through (N.found names.now) (N.descends names.now) (N.rank names.now) self.old.frames.items (both (Some (found_in (N.found names.now) (N.descends names.now) (N.rank names.now) self.old.found.items)) (on_list (N.found names.now) (N.descends names.now) (N.rank names.now) (option_map (λ r. r.now) values.entry) (each_factor scope (type_trees (type_views types.now)))))) }
    {
        match values {
            Some(values) => self.factors(scope, types, values, names),
            None => Ok(Next::Fails),
        }
    }

    /// Each field of a record against its type.
    pub(crate) fn each_field<N: TypeNames>(
        &mut self,
        scope: Name,
        fields: &'t [Field],
        values: Option<&'v [Value]>,
        names: &N,
    ) -> Result<Next<'v, 't>, OutOfMemory>
        ensures { IfOk result (λ next. stands (N.found names.now) (N.descends names.now) (N.rank names.now) self.new.found.items self.new.frames.items next ≡ through (N.found names.now) (N.descends names.now) (N.rank names.now) self.old.frames.items (both (Some (found_in (N.found names.now) (N.descends names.now) (N.rank names.now) self.old.found.items)) (on_list (N.found names.now) (N.descends names.now) (N.rank names.now) (option_map (λ r. r.now) values.entry) (each_field scope (map field_view fields.now))))) }
    {
        match values {
            Some(values) => self.fields(scope, fields, values, names),
            None => Ok(Next::Fails),
        }
    }
}
