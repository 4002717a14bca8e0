// What stands round a node.

ghost use Rattle.std.specs.Prelude.{◌≡◌, IfOk};
ghost use Rattle.step_data.specs.Declarations.{declared_of};

use crate::declared::Declared;
use eval_data::Nest;
use vdm_kinds::OutOfMemory;

/// What stands round a node: the tests of types, and the local variables that are declared.
#[derive(Drop)]
pub struct Around<'t> {
    pub nest: Nest,
    pub declared: Declared<'t>,
}

impl<'t> Around<'t> {
    /// The same once more, in constant time.
    pub fn share(&self) -> Result<Around<'t>, OutOfMemory>
        ensures nest { IfOk result (λ a. a.nest ≡ self.now.nest) }
        ensures declared { IfOk result (λ a. declared_of a.declared ≡ declared_of self.now.declared) }
    {
        let declared = self.declared.share()?;
        let nest = self.nest;
        Ok(Around { nest, declared })
    }
}
