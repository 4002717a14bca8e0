// Numbers in no order, the same for each seed.

ghost use Rattle.std.specs.Prelude.{◌<◌};

/// What the next number is made of. Each state is a multiple of the one before it and some more, within 64 bits.
#[derive(Drop)]
pub(crate) struct Random {
    state: u64,
}

/// Those of Knuth's MMIX, by which each of the 2^64 states comes once.
const MULTIPLIER: u64 = 6_364_136_223_846_793_005;

const ADDEND: u64 = 1_442_695_040_888_963_407;

/// The low bits of states repeat soon, so they are left out.
const LOW_BITS: u32 = 33;

impl Random {
    pub(crate) fn new(seed: u64) -> Random {
        Random { state: seed }
    }

    /// A number below the bound.
    pub(crate) fn below(&mut self, bound: u32) -> u32
        requires { 0 < bound }
        ensures { result < bound }
    {
        self.state = self.state.wrapping_mul(MULTIPLIER).wrapping_add(ADDEND);
        let high = self.state >> LOW_BITS;
        (high % u64::from(bound)) as u32
    }

    /// Whether a thing comes that comes once in so many times.
    pub(crate) fn once_in(&mut self, times: u32) -> bool
        requires { 0 < times }
    {
        self.below(times) == 0
    }
}
