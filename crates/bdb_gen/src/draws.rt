// Numbers drawn one after the other.
ghost use Rattle.std.specs.Prelude.{◌≡◌, ◌<◌};
ghost use Rattle.bdb_gen.specs.Draws.{next_state, drawn};

use std::marker::Model;

/// The factor of a step.
const FACTOR: u64 = 6_364_136_223_846_793_005;

/// The summand of a step.
const SUMMAND: u64 = 1_442_695_040_888_963_407;

/// Numbers that follow from a seed. Contracts see the state.
#[derive(Drop)]
pub struct Draws {
    state: u64,
}

impl Model for Draws {
    ghost use Rattle.std.specs.Prelude.{ℕ};

    ghost Value = { ℕ };

    ghost view = { λ d. d.state };
}

impl Draws {
    /// The numbers of a seed.
    pub fn new(seed: u64) -> Self
        ensures { result ≡ seed }
    {
        Draws { state: seed }
    }

    /// The next number, below a limit.
    pub fn draw(&mut self, limit: u64) -> u64
        requires { 0 < limit }
        ensures drawn { result ≡ drawn self.old limit }
        ensures below { result < limit }
        ensures state { self.new ≡ next_state self.old }
    {
        self.state = self.state.wrapping_mul(FACTOR).wrapping_add(SUMMAND);
        (self.state >> 33) % limit
    }
}
