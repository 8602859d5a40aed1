ghost use Rattle.std.specs.Prelude.{◌≡◌, ◌<◌};
ghost use Rattle.alb_sample.specs.Draws.{next_state, drawn};

use std::marker::Model;

// The multiplier of the generator, and what it adds.
const MULTIPLIER: u64 = 6364136223846793005;

const INCREMENT: u64 = 1442695040888963407;

/// The numbers that a sample is made of, drawn one after the other from a first number (a linear congruential generator; Knuth,
/// *The Art of Computer Programming*, volume 2, section 3.3.4). Contracts see its state, a number below 2^64.
#[derive(Clone, Copy)]
pub struct Draws {
    state: u64,
}

impl Model for Draws {
    ghost use Rattle.std.specs.Prelude.{ℕ};

    ghost Value = { ℕ };

    ghost view = { λ d. d.state };

    ghost inverse = { λ n. record { state = n } };
}

impl Draws {
    /// The draws from a first number on.
    pub fn new(n: u64) -> Draws
        ensures { result ≡ n }
    {
        Draws { state: n }
    }

    /// The next number below `below`.
    pub fn draw(&mut self, below: u64) -> u64
        requires { 0 < below }
        ensures value { result ≡ drawn below self.old }
        ensures state { self.new ≡ next_state self.old }
        ensures small { result < below }
    {
        let state = self.state.wrapping_mul(MULTIPLIER).wrapping_add(INCREMENT);
        self.state = state;
        (state >> 33) % below
    }
}
