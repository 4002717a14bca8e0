// Inside of which tests of types a node stands.

ghost use Rattle.std.specs.Prelude.{◌≡◌};
ghost use Rattle.node_meaning.specs.Envs.{no_nest, outermost};
ghost use Rattle.eval_data.specs.Parts.{nest_of};

use vdm_kinds::Place;

/// Inside of which tests of invariants of types a node stands.
#[derive(Clone, Copy)]
pub struct Nest {
    /// How many of them are being tested round it.
    pub depth: u32,
    /// Where the outermost of these tests is made, if that is known. Each fault inside stands there.
    pub test: Option<Place>,
}

impl Nest {
    /// Inside of none.
    pub fn none() -> Nest
        ensures { nest_of result ≡ no_nest }
    {
        Nest {
            depth: 0,
            test: None,
        }
    }

    /// Where a fault stands that would stand at the place.
    pub fn place(self, place: Place) -> Place
        ensures { result ≡ outermost self.test place }
    {
        match self.test {
            Some(test) => test,
            None => place,
        }
    }
}
