// Types that stand by their names.

ghost use Rattle.std.specs.Prelude.{◌≡◌, Some, None, IfOk, option_map};
ghost use Rattle.std.specs.Borrow.{Bor};
ghost use Rattle.expr_tree.specs.declared.type_def.TypeDef.{TypeDef as Definition};
ghost use Rattle.expr_tree.specs.TypeDefView.{type_def_view};
ghost use Rattle.type_meaning.specs.Tests.{both};
ghost use Rattle.type_meaning.specs.Shapes.{class_test, with_own};
ghost use Rattle.conform.specs.Frames.{found_in, through, stands, name_tests, body_tests, next_tests};

use crate::collecting::Collecting;
use crate::frame::Frame;
use crate::goal::{Goal, Next, plainly};
use crate::leaves::is_object_of;
use crate::parts::fields;
use expr_tree::{TypeBody, TypeDef, TypeNames};
use vdm_kinds::{Name, OutOfMemory, TypeName};
use vdm_values::Value;

impl<'v, 't> Collecting<'v, 't> {
    /// A type, or else a class, of this name.
    pub(crate) fn named<N: TypeNames>(
        &mut self,
        scope: Name,
        name: TypeName,
        value: &'v Value,
        names: &'t N,
    ) -> Result<Next<'v, 't>, OutOfMemory>
        ensures { IfOk result (λ next. stands (N.found names.now) (N.descends names.now) (N.rank names.now) self.new.found.items self.new.frames.items next ≡ through (N.found names.now) (N.descends names.now) (N.rank names.now) self.old.frames.items (both (Some (found_in (N.found names.now) (N.descends names.now) (N.rank names.now) self.old.found.items)) (name_tests (N.found names.now) (N.descends names.now) (N.rank names.now) value.now name (N.found names.now scope name.class name.name)))) }
    {
        match names.type_def(scope, name.class, name.name) {
            Some(definition) => self.defined(definition, value, names),
            None => Ok(of_class(name, value, names)),
        }
    }

    /// The body of a definition, and then its own invariant.
    fn defined<N: TypeNames>(
        &mut self,
        definition: &'t TypeDef,
        value: &'v Value,
        names: &N,
    ) -> Result<Next<'v, 't>, OutOfMemory>
        ensures { IfOk result (λ next. stands (N.found names.now) (N.descends names.now) (N.rank names.now) self.new.found.items self.new.frames.items next ≡ through (N.found names.now) (N.descends names.now) (N.rank names.now) self.old.frames.items (both (Some (found_in (N.found names.now) (N.descends names.now) (N.rank names.now) self.old.found.items)) (with_own (N.found names.now) (N.descends names.now) (type_def_view definition.now) value.now (body_tests (N.found names.now) (N.descends names.now) (N.rank names.now) value.now (type_def_view definition.now))))) }
    {
        self.frames.push(Frame::Own(definition, value))?;
        match &definition.body {
            TypeBody::Same(declared) => Ok(Next::Tests(Goal {
                value,
                scope: definition.class,
                declared,
            })),
            TypeBody::Fields(wanted) => {
                let found = fields(definition.class, definition.name, value);
                self.each_field(definition.class, wanted.as_slice(), found, names)
            }
        }
    }
}

/// What is no type's name may be a class's.
fn of_class<'v, 't, N: TypeNames>(name: TypeName, value: &'v Value, names: &N) -> Next<'v, 't>
    ensures { next_tests (N.found names.now) (N.descends names.now) (N.rank names.now) result ≡ class_test (N.found names.now) (N.descends names.now) name.class name.name value.now }
{
    match name.class {
        None => plainly(is_object_of(name.name, value, names)),
        Some(_) => Next::Fails,
    }
}
