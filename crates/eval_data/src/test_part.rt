// A part of the test of a value.

ghost use Rattle.std.specs.Prelude.{◌≡◌};
ghost use Rattle.eval_data.specs.declared.frame.Frame.TheVariants.{Cut};

use crate::frame::Frame;
use crate::here::Here;
use expr_tree::Expr;
use std::mem;

/// A part of the test of a value, what is done with what comes of it, and what is done with what comes of the test.
pub struct TestPart<'t> {
    pub here: Here<'t>,
    pub tree: &'t Expr,
    pub inner: Frame<'t>,
    pub outer: Frame<'t>,
}

// By hand, so that whoever drops it calls this, and does not prove again the dropping of all that is in a frame.
impl<'t> Drop for TestPart<'t> {
    fn drop(self) {
        let TestPart {
            here: _,
            tree: _,
            inner: _,
            outer: _,
        } = self;
    }
}

impl<'t> TestPart<'t> {
    /// Takes out what is done with what comes of the test.
    pub fn take_outer(&mut self) -> Frame<'t>
        ensures taken { result ≡ self.old.outer }
        ensures left { self.new ≡ record self.old { outer = Cut 0 } }
    {
        mem::replace(&mut self.outer, Frame::Cut(0))
    }

    /// Takes out what is done with what comes of the part.
    pub fn take_inner(&mut self) -> Frame<'t>
        ensures taken { result ≡ self.old.inner }
        ensures left { self.new ≡ record self.old { inner = Cut 0 } }
    {
        mem::replace(&mut self.inner, Frame::Cut(0))
    }
}
