ghost use Rattle.std.specs.Prelude.{◌≡◌};
ghost use Rattle.dbl_gen.specs.Draws.{next_state, drawn};

/// A linear congruential generator, with the constants of Knuth's MMIX.
#[derive(Drop)]
pub struct Draws {
    pub state: u64,
}

impl Draws {
    /// The next pseudorandom number, below 2^31: the high bits of the state.
    pub fn draw(&mut self) -> u64
        ensures state { self.new.state ≡ next_state self.old.state }
        ensures value { result ≡ drawn self.new.state }
    {
        self.state = self
            .state
            .wrapping_mul(6_364_136_223_846_793_005)
            .wrapping_add(1_442_695_040_888_963_407);
        self.state >> 33
    }
}
