//! Numbers drawn one after another.
ghost use Rattle.std.specs.Prelude.{◌≡◌};
ghost use Rattle.batch_gen.specs.Generator.{next_state, draw};

/// A generator of numbers: the state runs through all 64-bit numbers, and its upper 31 bits are
/// what is drawn (the project's own choice of numbers for a linear congruence).
#[derive(Drop)]
pub(crate) struct Draws {
    pub(crate) state: u64,
}

impl Draws {
    /// The next draw, below 2^31.
    pub(crate) fn next(&mut self) -> u64
        ensures state { self.new.state ≡ next_state self.old.state }
        ensures drawn { result ≡ draw self.old.state 1 }
    {
        self.state = self
            .state
            .wrapping_mul(6_364_136_223_846_793_005)
            .wrapping_add(1_442_695_040_888_963_407);
        self.state >> 33
    }
}
