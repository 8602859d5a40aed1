//! The calls of the claims.
ghost use Rattle.std.specs.Prelude.{◌≡◌, ◌+◌, ◌^◌, ◌<◌, ◌≤◌, true, false, [], ◌∷◌, ◌++◌, IfOk, OnOk, OnErr, MatchOption, length};
ghost use Rattle.alb_claims.specs.Claimed.{claim, EachAtMostOnce};
ghost use Rattle.alb_claims.specs.Passes.{IsPassOf, pass_view};

use crate::rule::{Another, Both, ClaimPass, Claims, Draws, Learns};
use alb_mono::NoMemory;
use atomic_table::Table;
use std::alloc::Global;

/// A number that was drawn, and the block that it names.
#[derive(Clone, Copy)]
pub struct Draw {
    pub number: u64,
    pub block: Option<u32>,
}

impl Claims {
    /// The claims of so many blocks, with the opener's pass, from which the others are split. No number is drawn yet.
    pub fn open(alloc: Global, count: u32) -> Result<(Claims, ClaimPass), NoMemory>
        ensures own { IfOk result (λ r. IsPassOf r.0 r.1) }
        ensures pass { IfOk result (λ r. pass_view r.1 ≡ claim [] true 1) }
        ensures count { IfOk result (λ r. r.0.count ≡ count) }
    {
        let (table, seat) = Table::of_words(alloc, &[0], &())?;
        Ok((Claims { table, count }, ClaimPass { seat }))
    }

    /// One more pass, which has drawn nothing. There are at most 16. This body takes no memory.
    pub fn split(&self, pass: &mut ClaimPass) -> Result<ClaimPass, NoMemory>
        requires own { IsPassOf self.now pass.old }
        requires opener { (pass_view pass.old).opener ≡ true }
        requires room { (pass_view pass.old).passes < 16 }
        ensures own { IsPassOf self.now pass.new }
        ensures own_new { IfOk result (λ q. IsPassOf self.now q) }
        ensures old { let v = pass_view pass.old in OnOk result (pass_view pass.new ≡ claim v.drawn v.opener (v.passes + 1)) }
        ensures new { IfOk result (λ q. pass_view q ≡ claim [] false 0) }
        ensures unchanged { OnErr result (pass_view pass.new ≡ pass_view pass.old) }
    {
        let seat = self.table.shared.split_seat::<Another>(&mut pass.seat);
        Ok(ClaimPass { seat })
    }

    /// The next number, which no other draw gives, and the block of this number if there is one.
    pub fn draw(&self, pass: &mut ClaimPass) -> Draw
        requires own { IsPassOf self.now pass.old }
        requires room { length (pass_view pass.old).drawn < 2 ^ 32 }
        ensures own { IsPassOf self.now pass.new }
        ensures drawn { let v = pass_view pass.old in pass_view pass.new ≡ claim (v.drawn ++ result.number ∷ []) v.opener v.passes }
        ensures block { MatchOption result.block (self.now.count ≤ result.number) (λ b. (b ≡ result.number) × (b < self.now.count)) }
    {
        let number = self.table.shared.fetch_add::<Draws>(&mut pass.seat, 0, 1);
        let block = if number < u64::from(self.count) {
            Some(number as u32)
        } else {
            None
        };
        Draw { number, block }
    }

    /// Puts the numbers of `other` behind those of `pass`. None stands there twice.
    pub fn join(&self, pass: &mut ClaimPass, other: ClaimPass)
        requires own { IsPassOf self.now pass.old }
        requires own_other { IsPassOf self.now other }
        requires room { length (pass_view pass.old).drawn + length (pass_view other).drawn ≤ 2 ^ 32 }
        ensures own { IsPassOf self.now pass.new }
        ensures both { let v = pass_view pass.old in pass_view pass.new ≡ claim (v.drawn ++ (pass_view other).drawn) v.opener v.passes }
        ensures once { EachAtMostOnce (pass_view pass.new).drawn }
    {
        let ClaimPass { seat } = other;
        self.table.shared.join_seat::<Both>(&mut pass.seat, seat);
        self.table.shared.load::<Learns>(&mut pass.seat, 0);
    }
}
