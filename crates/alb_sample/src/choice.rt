ghost use Rattle.std.specs.Prelude.{◌≡◌, ◌<◌, ◌≤◌};
ghost use Rattle.alb_mono.specs.Tree.{count};
ghost use Rattle.alb_sample.specs.Choice.{argument, choice_at, chosen_type, IsChoice};
ghost use Rattle.alb_sample.specs.Draws.{state_after};

use crate::Draws;
use alb_mono::{Multi, Side};

/// What is drawn for a polynomial.
#[derive(Clone, Copy)]
pub struct Choice {
    /// The number of an identity, from 0.
    pub identity: usize,
    /// The number of the first of three monomials, from 0: a, b or ab.
    pub first: usize,
    /// The number of the second one.
    pub second: usize,
    /// The number of the third one.
    pub third: usize,
    /// On which side of the instance the generator stands.
    pub side: Side,
    /// The number of the generator, from 0.
    pub generator: u8,
}

// How often a and b occur in the monomial with this number.
fn counts_of(k: usize) -> (u8, u8)
    requires { k < 3 }
    ensures a { result.0 ≡ count 0 (argument k) }
    ensures b { result.1 ≡ count 1 (argument k) }
    ensures few_a { result.0 ≤ 1 }
    ensures few_b { result.1 ≤ 1 }
{
    match k {
        0 => (1, 0),
        1 => (0, 1),
        _ => (1, 1),
    }
}

impl Choice {
    /// Draws a choice.
    pub fn draw(draws: &mut Draws) -> Choice
        ensures value { result ≡ choice_at draws.old }
        ensures state { draws.new ≡ state_after 5 draws.old }
        ensures choice { IsChoice result }
    {
        let identity = draws.draw(2) as usize;
        let first = draws.draw(3) as usize;
        let second = draws.draw(3) as usize;
        let third = draws.draw(3) as usize;
        let place = draws.draw(4);
        let side = if place < 2 { Side::Left } else { Side::Right };
        Choice {
            identity,
            first,
            second,
            third,
            side,
            generator: (place % 2) as u8,
        }
    }

    /// How often a and b occur in the generator and the three monomials.
    pub fn type_of(&self) -> Multi
        requires { IsChoice self.now }
        ensures { result ≡ chosen_type self.now }
    {
        let generator = counts_of(usize::from(self.generator));
        let first = counts_of(self.first);
        let second = counts_of(self.second);
        let third = counts_of(self.third);
        Multi::of(&[
            generator.0 + first.0 + second.0 + third.0,
            generator.1 + first.1 + second.1 + third.1,
        ])
    }
}
