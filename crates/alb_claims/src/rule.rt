//! The word of the claims, which is the next number, and the rule that holds between any two steps.
ghost use Rattle.std.specs.Prelude.{◌≡◌, ◌+◌, ◌++◌, [], true, false};
ghost use Rattle.alb_claims.specs.Claimed.{Claimed, claim, draws, learns};

use atomic_table::{Join, Play, Seat, Split, Table, TableRule};
use std::alloc::Global;
use std::collections::LinkedList;

/// What a pass knows, of which contracts alone speak: the numbers that it holds, in the order in which it got them; whether it is
/// the opener's; and how many passes there are, where it is.
pub struct Claim {
    pub drawn: LinkedList<u64>,
    pub opener: bool,
    pub passes: u64,
}

/// The rule: each number below the word was drawn once.
pub struct EachOnce;

impl TableRule<(), Claim, ()> for EachOnce {
    ghost holds = { λ _. Claimed };

    ghost first = { λ _. claim [] true 1 };
}

/// The numbers from 0 on, of which those below a count name a block. They are shared by `&` among threads.
#[derive(Drop)]
pub struct Claims {
    pub(crate) table: Table<(), Claim, (), EachOnce, Global>,
    pub(crate) count: u32,
    ghost one_word: { table.shared.table_id.words ≡ 1 },
}

/// The right of one caller to draw.
#[derive(Drop)]
pub struct ClaimPass {
    pub(crate) seat: Seat<(), Claim>,
    ghost idle: { seat.me.1 ≡ [] },
}

// A number is drawn.
pub(crate) struct Draws;

impl Play<(), Claim> for Draws {
    ghost then = { draws };
}

// Nothing changes, and the pass learns that it holds no number twice.
pub(crate) struct Learns;

impl Play<(), Claim> for Learns {
    ghost then = { learns };
}

// A pass is split off.
pub(crate) struct Another;

impl Split<Claim> for Another {
    ghost left = { λ v. claim v.drawn v.opener (v.passes + 1) };

    ghost right = { λ v. claim [] false 0 };
}

// The numbers of two passes come into one.
pub(crate) struct Both;

impl Join<Claim> for Both {
    ghost both = { λ v w. claim (v.drawn ++ w.drawn) v.opener v.passes };

    ghost spent = { claim [] false 0 };
}
