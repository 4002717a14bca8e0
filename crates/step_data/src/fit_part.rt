// A part of the test of a value that does not stand in an expression.

ghost use Rattle.std.specs.Prelude.{◌≡◌, ◌≤◌, IfOk};
ghost use Rattle.abstract_syntax.specs.Classes.{SpecTree};
ghost use Rattle.node_meaning.specs.Envs.{Locals};
ghost use Rattle.eval_data.specs.declared.frame.Frame.TheVariants.{Cut};
ghost use Rattle.step_data.specs.declared.waiting.Waiting.TheVariants.{End};
ghost use Rattle.step_data.specs.Actions.{action_code, busy, height, nested};

use crate::action::Action;
use crate::pending::Pending;
use crate::waiting::Waiting;
use eval_data::{Frame, Here};
use std::alloc::Global;
use std::mem;
use vdm_kinds::OutOfMemory;
use vdm_tree::Expr;

/// A part of the test of a value that is to be written, was left by a call, or stands in a slot of a new object: what is done with
/// what comes of it, and what is done with what comes of the test.
pub struct FitPart<'t> {
    pub here: Here<'t>,
    pub tree: &'t Expr,
    pub inner: Frame<'t>,
    pub outer: Pending<'t>,
}

// By hand, so that whoever drops it calls this, and does not prove again the dropping of all that is in a frame.
impl<'t> Drop for FitPart<'t> {
    fn drop(self) {
        let FitPart {
            here: _,
            tree: _,
            inner: _,
            outer: _,
        } = self;
    }
}

impl<'t> FitPart<'t> {
    /// Takes out what is done with what comes of the test.
    pub fn take_outer(&mut self) -> Pending<'t>
        ensures taken { result ≡ self.old.outer }
        ensures left { self.new ≡ record self.old { outer = record { waiting = End } } }
    {
        mem::replace(
            &mut self.outer,
            Pending {
                waiting: Waiting::End,
            },
        )
    }

    /// Takes out what is done with what comes of the part.
    pub fn take_inner(&mut self) -> Frame<'t>
        ensures taken { result ≡ self.old.inner }
        ensures left { self.new ≡ record self.old { inner = Cut 0 } }
    {
        mem::replace(&mut self.inner, Frame::Cut(0))
    }
}

impl<'t> Action<'t> {
    /// A part of the test of a value, what is done with what comes of it, and what is done with what comes of the test.
    pub fn fit(
        alloc: Global,
        here: Here<'t>,
        tree: &'t Expr,
        inner: Frame<'t>,
        outer: Waiting<'t>,
    ) -> Result<Action<'t>, OutOfMemory>
        ensures same { IfOk result (λ a. (spec : SpecTree) (locals : Locals) → action_code spec locals a ≡ nested spec locals here.entry tree.entry inner.entry outer.entry) }
        ensures busy { IfOk result (λ a. busy a ≤ 1) }
        ensures falls { IfOk result (λ a. height a ≤ 1) }
    {
        let part = FitPart {
            here,
            tree,
            inner,
            outer: Pending { waiting: outer },
        };
        Ok(Action::Fit(Box::new(alloc, part)?))
    }
}
