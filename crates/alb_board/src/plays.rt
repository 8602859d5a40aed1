//! What each kind of step on a board's words tells the pass that makes it.
ghost use Rattle.std.specs.Prelude.{◌+◌};
ghost use Rattle.alb_board.specs.Steps.{draws, looks, counts, counts_in_turn, raises, shows, leaves};
ghost use Rattle.alb_board.specs.Views.{split_view};

use crate::kept::{PassView, Shot};
use atomic_table::{Play, Split};

// Draws a ticket.
pub(crate) struct Draw;

impl Play<Option<Shot>, PassView> for Draw {
    ghost then = { draws };
}

// Looks which ticket is served. Where it is the own one, the turn begins and the slot is taken.
pub(crate) struct Look;

impl Play<Option<Shot>, PassView> for Look {
    ghost then = { looks };
}

// Loads the number of the kept value, with no turn.
pub(crate) struct Count;

impl Play<Option<Shot>, PassView> for Count {
    ghost then = { counts };
}

// Loads the number of the kept value in the turn.
pub(crate) struct CountInTurn;

impl Play<Option<Shot>, PassView> for CountInTurn {
    ghost then = { counts_in_turn };
}

// Raises the number: the builder keeps the value that it holds.
pub(crate) struct Raise;

impl Play<Option<Shot>, PassView> for Raise {
    ghost then = { raises };
}

// Ends the turn, in which the value was shown.
pub(crate) struct Show;

impl Play<Option<Shot>, PassView> for Show {
    ghost then = { shows };
}

// Ends the turn.
pub(crate) struct Leave;

impl Play<Option<Shot>, PassView> for Leave {
    ghost then = { leaves };
}

// One more pass.
pub(crate) struct Copy;

impl Split<PassView> for Copy {
    ghost left = { λ v. record v { passes = v.passes + 1 } };

    ghost right = { split_view };
}
