//! The words of a board: word 0 is the next ticket, word 1 the ticket that is served, and word 2 the number of the kept value.
ghost use Rattle.std.specs.Prelude.{◌≡◌};
ghost use Rattle.std.specs.Arc.{arc_value};
ghost use Rattle.alb_board.specs.Turns.{Turns};
ghost use Rattle.alb_board.specs.Views.{first_view, HasNoTurn};

use crate::kept::{PassView, Shot};
use alb_poly::Rules;
use atomic_table::{Seat, Shared, Table, TableRule};
use std::alloc::Global;
use std::sync::Arc;

/// The rule of a board, which holds between any two steps.
pub struct InTurns;

impl TableRule<Option<Shot>, PassView, Rules> for InTurns {
    ghost holds = { Turns };

    ghost first = { first_view };
}

pub(crate) type Lines = Shared<Option<Shot>, PassView, Rules, InTurns>;

pub(crate) type Place = Seat<Option<Shot>, PassView>;

/// A board: the rules, and a slot that keeps the published tables and the end. It is shared by `&` among threads.
#[derive(Drop)]
pub struct Board {
    pub(crate) table: Table<Option<Shot>, PassView, Rules, InTurns, Global>,
    pub(crate) rules: Arc<Rules>,
    ghost sized: { (table.shared.table_id.words ≡ 3) × (table.shared.table_id.slots ≡ 1) },
    ghost own: { table.shared.key ≡ arc_value rules },
}

/// The right of one caller to take turns at a board. The builder's publishes; those that are split from it ask.
#[derive(Drop)]
pub struct Pass {
    pub(crate) seat: Place,
    pub(crate) seen: u32,
    ghost idle: { HasNoTurn seat.me },
    ghost told: { seen ≡ seat.me.0.seen },
}
