//! One turn of a session.
ghost use Rattle.std.specs.Prelude.{◌≡◌, ◌≢◌, ◌+◌, ◌^◌, ◌≤◌, false, length};
ghost use Rattle.alb_board.specs.Passes.{board_rules, IsPassOf, pass_view};
ghost use Rattle.alb_io.specs.Causes.{Rose};
ghost use Rattle.alb_session.specs.Turns.{TakesTurn, IsFine};
ghost use Rattle.alb_table.specs.RightTable.{rules_view, AreRules};

use crate::answer::take_request;
use crate::request::read_request;
use crate::response::Response;
use crate::taken::Taken;
use alb_board::{Board, Pass};
use alb_io::{LineReader, LineStep, Source};
use alb_mono::Letters;
use alb_script::Refusal;
use std::alloc::Global;
use std::sync::Wait;

/// Reads a line and answers it.
pub fn take_turn<R: Wait, S: Source>(
    rt: &R,
    alloc: Global,
    board: &Board,
    pass: &mut Pass,
    letters: &Letters,
    reader: &mut LineReader,
    source: &mut S,
) -> Taken
    requires own { IsPassOf board.now pass.old }
    requires rules { AreRules (rules_view (board_rules board.now)) }
    requires letters { length letters.now ≡ length (board_rules board.now).target }
    requires room { (pass_view pass.old).calls + 16 ≤ 2 ^ 48 }
    requires running { reader.old.ended ≡ false }
    ensures own { IsPassOf board.now pass.new }
    ensures takes { TakesTurn result (rules_view (board_rules board.now)) letters.now (pass_view pass.old) (pass_view pass.new) reader.old reader.new (S.left source.old) (S.left source.new) }
    ensures fine { IsFine result }
    ensures later { S.faults source.old ≤ S.faults source.new }
    ensures fault { result ≡ Taken.ReadFault → Rose (S.faults source.old) (S.faults source.new) }
    ensures sound { S.is_sound source.old → S.is_sound source.new × (result ≢ Taken.ReadFault) }
{
    match reader.next_line(source) {
        LineStep::Line => {
            let request = read_request(alloc, board.rules(), letters, reader.line());
            take_request(rt, alloc, board, pass, letters, &request)
        }
        LineStep::TooLong => Taken::Response(Response::Refused(Refusal::TooLong)),
        LineStep::End => Taken::End,
        LineStep::ReadFault => Taken::ReadFault,
        LineStep::InputLimit => Taken::InputLimit,
    }
}
