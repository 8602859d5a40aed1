//! How many workers build a table.
ghost use Rattle.std.specs.Prelude.{◌≡◌, ◌<◌, ◌≤◌};

use std::marker::Model;

/// A number of workers, 1 to 16.
#[derive(Clone, Copy)]
pub struct Workers {
    number: u32,
}

impl Model for Workers {
    ghost use Rattle.std.specs.Prelude.{ℕ, ◌<◌, ◌≤◌};

    ghost Value = { ℕ };

    ghost view = { λ w. w.number };

    ghost invariant = { λ w. (0 < w.number) × (w.number ≤ 16) };

    ghost inverse = { λ n. record { number = n } };
}

impl Workers {
    /// This number of workers.
    pub fn of(number: u32) -> Workers
        requires some { 0 < number }
        requires few { number ≤ 16 }
        ensures { result ≡ number }
    {
        Workers { number }
    }

    /// How many there are.
    pub fn number(self) -> u32
        ensures value { result ≡ self }
        ensures some { 0 < result }
        ensures few { result ≤ 16 }
    {
        self.number
    }
}
