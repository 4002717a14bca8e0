// The first test of a value against a type.

ghost use Rattle.std.specs.Prelude.{◌≡◌, Some, IfOk};
ghost use Rattle.type_tree.specs.TypeView.{type_view};
ghost use Rattle.type_meaning.specs.Tests.{both};
ghost use Rattle.type_meaning.specs.Shapes.{tests_of};
ghost use Rattle.conform.specs.Frames.{found_in, through, stands};

use crate::basic::is_of_basic;
use crate::collecting::Collecting;
use crate::goal::{Goal, Next, plainly};
use crate::leaves::{is_nil, is_quote};
use crate::parts::{components, elements, entries, items};
use expr_tree::{TypeExpr, TypeNames};
use std::alloc::Global;
use vdm_kinds::OutOfMemory;

impl<'v, 't> Collecting<'v, 't> {
    /// The first test of a value against a type.
    pub(crate) fn shape<N: TypeNames>(
        &mut self,
        alloc: Global,
        goal: Goal<'v, 't>,
        names: &'t N,
    ) -> Result<Next<'v, 't>, OutOfMemory>
        ensures { IfOk result (λ next. stands (N.found names.now) (N.descends names.now) (N.rank names.now) self.new.found.items self.new.frames.items next ≡ through (N.found names.now) (N.descends names.now) (N.rank names.now) self.old.frames.items (both (Some (found_in (N.found names.now) (N.descends names.now) (N.rank names.now) self.old.found.items)) (tests_of (N.found names.now) (N.descends names.now) (N.rank names.now) goal.entry.value.now goal.entry.scope (type_view goal.entry.declared.now)))) }
    {
        let Goal {
            value,
            scope,
            declared,
        } = goal;
        match declared {
            TypeExpr::Basic(basic, _) => Ok(plainly(is_of_basic(*basic, value))),
            TypeExpr::Quote(name, _) => Ok(plainly(is_quote(*name, value))),
            TypeExpr::Set(element, _) => self.each_value(scope, element, elements(value), names),
            TypeExpr::Seq(item, _) => self.each_value(scope, item, items(value), names),
            TypeExpr::Seq1(item, _) => self.each_of_some(scope, item, items(value), names),
            TypeExpr::Map(key, held, _) => {
                self.each_entry(scope, key, held, entries(value), names)
            }
            TypeExpr::InMap(key, held, _) => {
                self.each_distinct(alloc, scope, key, held, value, names)
            }
            TypeExpr::Optional(inner, _) => {
                if is_nil(value) {
                    Ok(Next::Holds)
                } else {
                    Ok(Next::Tests(goal.of(inner)))
                }
            }
            TypeExpr::Bracketed(inner, _) => Ok(Next::Tests(goal.of(inner))),
            TypeExpr::Named(name, _) => self.named(scope, *name, value, names),
            TypeExpr::Product(factors, _) => {
                self.each_factor(scope, factors.as_slice(), components(value), names)
            }
            TypeExpr::Union(types, _) => {
                self.alternatives(alloc, scope, types.as_slice(), value, names)
            }
        }
    }
}
