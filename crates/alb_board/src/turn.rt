//! The steps of one turn.
ghost use Rattle.std.specs.Prelude.{◌≡◌, ℕ, ◌+◌, ◌^◌, ◌<◌, ◌≤◌, true, [], ◌∷◌, Some, None};
ghost use Rattle.alb_board.specs.Published.{published_of, number_of, IsKeepable};
ghost use Rattle.alb_board.specs.Steps.{HoldsShot, HoldsKept, HasTurn, after_raise, after_shot, no_turn};
ghost use Rattle.alb_board.specs.Views.{HasNoTurn};

use crate::kept::Shot;
use crate::plays::{Count, CountInTurn, Draw, Leave, Look, Raise, Show};
use crate::rule::{Lines, Place};
use std::sync::Wait;
use std::thread;

// Draws a ticket and waits until it is served.
pub(crate) fn enter<R: Wait>(rt: &R, lines: &Lines, seat: &mut Place)
    requires own { (seat.old.table_id ≡ lines.now.table_id) × (lines.now.table_id.words ≡ 3) × (lines.now.table_id.slots ≡ 1) }
    requires idle { HasNoTurn seat.old.me × (seat.old.me.0.calls < 2 ^ 48) }
    ensures own { seat.new.table_id ≡ seat.old.table_id }
    ensures turn { HasTurn seat.old.me seat.new.me }
{
    let ticket = lines.fetch_add::<Draw>(seat, 0, 1);
    for _ in rt.forever() {
        if lines.load::<Look>(seat, 1) == ticket {
            return;
        }
        thread::yield_now();
    }
    unreachable!()
}

// Loads the number of the kept value.
pub(crate) fn count_in_turn(lines: &Lines, seat: &mut Place)
    requires own { (seat.old.table_id ≡ lines.now.table_id) × (lines.now.table_id.words ≡ 3) }
    requires turn { seat.old.me.0.turn ≡ true }
    ensures own { seat.new.table_id ≡ seat.old.table_id }
    ensures count { (n : ℕ) × (seat.new.me ≡ (record seat.old.me.0 { known = n; counted = true }, seat.old.me.1)) × (seat.old.me.0.known ≤ n) × (n ≡ number_of seat.old.me.0.held) }
{
    lines.load::<CountInTurn>(seat, 2);
}

// Takes the value out of the slot that the seat holds.
pub(crate) fn take(lines: &Lines, seat: &mut Place) -> Shot
    requires own { seat.old.table_id ≡ lines.now.table_id }
    requires held { HoldsShot seat.old.me }
    ensures own { seat.new.table_id ≡ seat.old.table_id }
    ensures held { (seat.new.me ≡ (seat.old.me.0, (0, None) ∷ [])) × (seat.old.me.1 ≡ (0, Some result) ∷ []) }
{
    let Some(kept) = lines.exchange(seat, 0, None) else {
        unreachable!()
    };
    kept
}

// Puts a value into the slot that the seat holds.
pub(crate) fn put(lines: &Lines, seat: &mut Place, kept: Shot)
    requires own { seat.old.table_id ≡ lines.now.table_id }
    requires held { seat.old.me.1 ≡ (0, None) ∷ [] }
    ensures own { seat.new.table_id ≡ seat.old.table_id }
    ensures held { seat.new.me ≡ (seat.old.me.0, (0, Some kept) ∷ []) }
{
    let _none = lines.exchange(seat, 0, Some(kept));
}

// Puts a new value there, and raises the number.
pub(crate) fn keep(lines: &Lines, seat: &mut Place, kept: Shot)
    requires own { (seat.old.table_id ≡ lines.now.table_id) × (lines.now.table_id.words ≡ 3) }
    requires held { seat.old.me.1 ≡ (0, None) ∷ [] }
    requires turn { (seat.old.me.0.turn ≡ true) × (seat.old.me.0.builder ≡ true) × (seat.old.me.0.end ≡ None) }
    requires kept { IsKeepable seat.old.me.0.rules kept × (number_of (published_of kept) ≡ number_of seat.old.me.0.held + 1) × (seat.old.me.0.held.degree ≤ (published_of kept).degree) × (number_of (published_of kept) < 2 ^ 64) }
    ensures own { seat.new.table_id ≡ seat.old.table_id }
    ensures raised { seat.new.me ≡ (after_raise seat.old.me.0 (published_of kept), (0, Some kept) ∷ []) }
    ensures kept { (seat.new.me.0.turn ≡ true) × HoldsKept seat.new.me }
{
    put(lines, seat, kept);
    lines.fetch_add::<Raise>(seat, 2, 1);
}

// Gives the turn up.
pub(crate) fn leave(lines: &Lines, seat: &mut Place)
    requires own { (seat.old.table_id ≡ lines.now.table_id) × (lines.now.table_id.words ≡ 3) }
    requires turn { (seat.old.me.0.turn ≡ true) × HoldsKept seat.old.me }
    ensures own { seat.new.table_id ≡ seat.old.table_id }
    ensures idle { seat.new.me ≡ (no_turn seat.old.me.0, []) }
{
    lines.fetch_add::<Leave>(seat, 1, 1);
}

// Gives the turn up, after the value was shown.
pub(crate) fn show(lines: &Lines, seat: &mut Place)
    requires own { (seat.old.table_id ≡ lines.now.table_id) × (lines.now.table_id.words ≡ 3) }
    requires turn { (seat.old.me.0.turn ≡ true) × (seat.old.me.0.counted ≡ true) × HoldsKept seat.old.me }
    ensures own { seat.new.table_id ≡ seat.old.table_id }
    ensures idle { seat.new.me ≡ (after_shot seat.old.me.0, []) }
{
    lines.fetch_add::<Show>(seat, 1, 1);
}

// Loads the number until it is above `seen`.
pub(crate) fn wait_above<R: Wait>(rt: &R, lines: &Lines, seat: &mut Place, seen: u64)
    requires own { (seat.old.table_id ≡ lines.now.table_id) × (lines.now.table_id.words ≡ 3) }
    requires idle { HasNoTurn seat.old.me }
    ensures own { seat.new.table_id ≡ seat.old.table_id }
    ensures known { seat.new.me ≡ (record seat.old.me.0 { known = seat.new.me.0.known }, seat.old.me.1) }
    ensures more { (seen < seat.new.me.0.known) × (seat.old.me.0.known ≤ seat.new.me.0.known) }
{
    for _ in rt.forever() {
        if lines.load::<Count>(seat, 2) > seen {
            return;
        }
        thread::yield_now();
    }
    unreachable!()
}
