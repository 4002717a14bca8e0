// Frames that wait with much in a box. They are made here, so that what is dropped where memory is refused is proved once.

ghost use Rattle.std.specs.Prelude.{◌≡◌, IfOk};
ghost use Rattle.expr_tree.specs.View.{view_of};
ghost use Rattle.plans.specs.Plans.{bind, part};
ghost use Rattle.node_meaning.specs.Envs.{Locals, at};
ghost use Rattle.node_meaning.specs.Needs.{Setting};
ghost use Rattle.node_meaning.specs.Strict.{with_others};
ghost use Rattle.node_meaning.specs.Tasks.{expr_in, with_value};
ghost use Rattle.node_meaning.specs.Functions.{post_of};
ghost use Rattle.eval_data.specs.declared.matching.Met.TheVariants.{Definition};
ghost use Rattle.eval_data.specs.Parts.{applying_of, here_of, parts_of};
ghost use Rattle.eval_data.specs.Steps.{arguments_left, code_of, fields_left, frame_then, meets_with, then_of};

use crate::applying::Applying;
use crate::collecting::{Collecting, Then};
use crate::fitting::{Filling, Passing};
use crate::frame::{Frame, Use};
use crate::here::Here;
use crate::matching::MetDefinition;
use crate::parts::Parts;
use crate::step::Step;
use crate::test_part::TestPart;
use expr_tree::Expr;
use std::alloc::Global;
use vdm_kinds::{OutOfMemory, Place};
use vdm_values::Value;

impl<'t> Frame<'t> {
    /// The value stands behind those that came, and further ones follow; then this is done with all of them.
    pub fn collecting(
        alloc: Global,
        here: Here<'t>,
        place: Place,
        rest: Parts<'t>,
        done: Vec<Value>,
        then: Then<'t>,
    ) -> Result<Frame<'t>, OutOfMemory>
        ensures { IfOk result (λ f. (setting : Setting) → frame_then setting f ≡ with_value place (with_others (here_of here.entry) place (parts_of rest.entry) done.items (then_of setting then.entry (here_of here.entry) place))) }
    {
        let collecting = Collecting {
            here,
            place,
            rest,
            done,
            then,
        };
        let collecting = Box::new(alloc, collecting)?;
        Ok(Frame::With(Use::Collect(collecting), place))
    }
}

impl<'t> Step<'t> {
    /// A part of the test of a value, what is done with what comes of it, and what is done with what comes of the test.
    pub fn test(
        alloc: Global,
        here: Here<'t>,
        tree: &'t Expr,
        inner: Frame<'t>,
        outer: Frame<'t>,
    ) -> Result<Step<'t>, OutOfMemory>
        ensures { IfOk result (λ s. (setting : Setting) (locals : Locals) → code_of setting locals s ≡ bind (part (expr_in (at (here_of here.entry) locals) (view_of tree.entry.now)) (frame_then setting inner.entry)) (frame_then setting outer.entry)) }
    {
        let test = TestPart {
            here,
            tree,
            inner,
            outer,
        };
        Ok(Step::Test(Box::new(alloc, test)?))
    }

    /// A part of the test of an argument, and behind the test the arguments that are left.
    pub fn argument_test(
        alloc: Global,
        here: Here<'t>,
        tree: &'t Expr,
        inner: Frame<'t>,
        passing: Passing<'t>,
        place: Place,
    ) -> Result<Step<'t>, OutOfMemory>
        ensures { IfOk result (λ s. (setting : Setting) (locals : Locals) → code_of setting locals s ≡ bind (part (expr_in (at (here_of here.entry) locals) (view_of tree.entry.now)) (frame_then setting inner.entry)) (with_value place (λ v. arguments_left setting.spec passing.entry))) }
    {
        let used = Use::ArgumentFits(Box::new(alloc, passing)?);
        Step::test(alloc, here, tree, inner, Frame::With(used, place))
    }

    /// A part of the test of a field, and behind the test the fields that are left.
    pub fn field_test(
        alloc: Global,
        here: Here<'t>,
        tree: &'t Expr,
        inner: Frame<'t>,
        filling: Filling<'t>,
        place: Place,
    ) -> Result<Step<'t>, OutOfMemory>
        ensures { IfOk result (λ s. (setting : Setting) (locals : Locals) → code_of setting locals s ≡ bind (part (expr_in (at (here_of here.entry) locals) (view_of tree.entry.now)) (frame_then setting inner.entry)) (with_value place (λ v. fields_left setting.spec filling.entry place))) }
    {
        let used = Use::FieldFits(Box::new(alloc, filling)?);
        Step::test(alloc, here, tree, inner, Frame::With(used, place))
    }

    /// A part of the test of the result of a function, and behind the test what `post` says of it.
    pub fn result_test(
        alloc: Global,
        here: Here<'t>,
        tree: &'t Expr,
        inner: Frame<'t>,
        applying: Box<Applying<'t>>,
        place: Place,
    ) -> Result<Step<'t>, OutOfMemory>
        ensures { IfOk result (λ s. (setting : Setting) (locals : Locals) → code_of setting locals s ≡ bind (part (expr_in (at (here_of here.entry) locals) (view_of tree.entry.now)) (frame_then setting inner.entry)) (with_value place (post_of (applying_of applying.entry.value) (applying_of applying.entry.value).function.post))) }
    {
        let used = Use::ResultFits(applying);
        Step::test(alloc, here, tree, inner, Frame::With(used, place))
    }

    /// A part of the test of what a definition gives, which behind the test meets the pattern.
    pub fn definition_test(
        alloc: Global,
        here: Here<'t>,
        tree: &'t Expr,
        inner: Frame<'t>,
        outside: Here<'t>,
        definition: MetDefinition<'t>,
        place: Place,
    ) -> Result<Step<'t>, OutOfMemory>
        ensures { IfOk result (λ s. (setting : Setting) (locals : Locals) → code_of setting locals s ≡ bind (part (expr_in (at (here_of here.entry) locals) (view_of tree.entry.now)) (frame_then setting inner.entry)) (with_value place (meets_with setting.spec (Definition outside.entry definition.entry) place))) }
    {
        let used = Use::DefinitionFits(outside, definition);
        Step::test(alloc, here, tree, inner, Frame::With(used, place))
    }
}
