//! A session from its first line to its last.
ghost use Rattle.std.specs.Prelude.{◌≡◌, ◌≢◌, ◌+◌, ◌^◌, ◌≤◌, length};
ghost use Rattle.alb_board.specs.Passes.{board_rules, IsPassOf, pass_view};
ghost use Rattle.alb_io.specs.Causes.{Rose};
ghost use Rattle.alb_session.specs.Served.{IsNewReader, Served};
ghost use Rattle.alb_table.specs.RightTable.{rules_view, AreRules};

use crate::end::SessionEnd;
use crate::taken::Taken;
use crate::turn::take_turn;
use crate::write::write_response;
use alb_board::{Board, Pass};
use alb_io::{LineReader, Sink, Source};
use alb_mono::Letters;
use std::alloc::Global;
use std::sync::Wait;

/// Answers the lines of a source, one after the other, up to its end or to `quit`. Each line that asks for an answer rests on a shot
/// of its own, and shows its degree; `await k` asks until the degree is k or an end is kept. All of an answer is there before its
/// first byte is written; where there is no memory for it, the answer is `[d] no memory` and the session goes on.
pub fn serve<R: Wait, S: Source, K: Sink>(
    rt: &R,
    alloc: Global,
    board: &Board,
    pass: &mut Pass,
    letters: &Letters,
    reader: &mut LineReader,
    source: &mut S,
    sink: &mut K,
) -> SessionEnd
    requires own { IsPassOf board.now pass.old }
    requires rules { AreRules (rules_view (board_rules board.now)) }
    requires letters { length letters.now ≡ length (board_rules board.now).target }
    requires fresh { IsNewReader reader.old }
    requires limit { reader.old.room ≤ 2 ^ 40 }
    requires calls { (pass_view pass.old).calls + 2 ^ 41 ≤ 2 ^ 48 }
    // The pass stays one of the board.
    ensures own { IsPassOf board.now pass.new }
    // What was written, to the lines of the source and the shots of the pass.
    ensures served { Served result (rules_view (board_rules board.now)) letters.now (pass_view pass.old) (pass_view pass.new) reader.old.room (S.left source.old) (S.left source.new) (K.taken sink.old) (K.taken sink.new) }
    // A fault comes only where the object's count of faults rose, and never from a sound source.
    ensures later_reads { S.faults source.old ≤ S.faults source.new }
    ensures later_writes { K.faults sink.old ≤ K.faults sink.new }
    ensures read_fault { result ≡ SessionEnd.ReadFault → Rose (S.faults source.old) (S.faults source.new) }
    ensures write_fault { result ≡ SessionEnd.WriteFault → Rose (K.faults sink.old) (K.faults sink.new) }
    ensures sound { S.is_sound source.old → S.is_sound source.new × (result ≢ SessionEnd.ReadFault) }
    // The sink tells the name that it told before.
    ensures same_name { K.name sink.new ≡ K.name sink.old }
{
    'turns: loop {
        match take_turn(rt, alloc, board, pass, letters, reader, source) {
            Taken::Response(response) => match write_response(alloc, sink, &response) {
                Ok(()) => {}
                Err(_) => return SessionEnd::WriteFault,
            },
            Taken::Quit => return SessionEnd::Ended,
            Taken::End => return SessionEnd::Ended,
            Taken::ReadFault => return SessionEnd::ReadFault,
            Taken::InputLimit => return SessionEnd::InputLimit,
        }
    }
}
