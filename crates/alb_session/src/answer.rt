//! What a request is answered, by shots of the board.
ghost use Rattle.std.specs.Prelude.{◌≡◌, ◌+◌, ◌^◌, ◌≤◌, length, IfOk, Ok, Some, Result};
ghost use Rattle.alb_board.specs.Passes.{board_rules, IsPassOf, pass_view};
ghost use Rattle.alb_question.specs.Question.{IsFinding};
ghost use Rattle.alb_question.specs.Views.{question_of, finding_of, IsQuestionOver, IsPrintable};
ghost use Rattle.alb_script.specs.Asked.{Asked};
ghost use Rattle.alb_script.specs.declared.error.CommandError.{CommandError};
ghost use Rattle.alb_session.specs.Session.{question_in};
ghost use Rattle.alb_session.specs.Turns.{TakesAsked, IsFine};
ghost use Rattle.alb_session.specs.View.{response_text, AnswersBy, AsksFor, CanBeWritten, IsFoundText, MayBeAsked};
ghost use Rattle.alb_table.specs.RightTable.{rules_view, AreRules, IsRightFor};

use crate::request::Request;
use crate::response::Response;
use crate::taken::Taken;
use crate::waiting::await_degree;
use alb_board::{Board, Pass};
use alb_io::{MemSink, WriteFault};
use alb_mono::{Letters, NoMemory};
use alb_poly::Rules;
use alb_question::{Finding, Question, answer_question, write_finding};
use alb_script::Refusal;
use alb_table::Tables;
use alb_trace::Deriver;
use std::alloc::Global;
use std::sync::Wait;

// What is found for a question by a table. Nothing that was derived before is used: a table may be another one each time.
fn found(
    alloc: Global,
    rules: &Rules,
    tables: &Tables,
    question: &Question,
) -> Result<Finding, NoMemory>
    requires rules { AreRules (rules_view rules.now) }
    requires right { IsRightFor (rules_view rules.now) tables.now }
    requires over { IsQuestionOver tables.now.p (length tables.now.target) (question_of question.now) }
    ensures finding { IfOk result (λ f. IsFinding (rules_view rules.now) tables.now (question_of question.now) (finding_of f)) }
    ensures printable { IfOk result (λ f. IsPrintable tables.now.p (length tables.now.target) f) }
{
    let mut deriver = Deriver::new(alloc);
    answer_question(alloc, rules, tables, &mut deriver, question)
}

// The text of what is found for a question by a table.
fn found_text(
    alloc: Global,
    rules: &Rules,
    tables: &Tables,
    letters: &Letters,
    question: &Question,
) -> Result<MemSink, NoMemory>
    requires rules { AreRules (rules_view rules.now) }
    requires right { IsRightFor (rules_view rules.now) tables.now }
    requires letters { length letters.now ≡ length tables.now.target }
    requires over { IsQuestionOver tables.now.p (length tables.now.target) (question_of question.now) }
    ensures { IfOk result (λ t. IsFoundText (rules_view rules.now) letters.now tables.now (question_of question.now) t.taken) }
{
    let finding = found(alloc, rules, tables, question)?;
    let mut sink = MemSink::new(alloc, usize::MAX, Vec::new(alloc));
    match write_finding(&mut sink, letters, tables, &finding) {
        Ok(()) => Ok(sink),
        Err(WriteFault) => Err(NoMemory),
    }
}

// Answers a question by one shot.
fn answer<R: Wait>(
    rt: &R,
    alloc: Global,
    board: &Board,
    pass: &mut Pass,
    letters: &Letters,
    question: &Question,
) -> Response
    requires own { IsPassOf board.now pass.old }
    requires rules { AreRules (rules_view (board_rules board.now)) }
    requires letters { length letters.now ≡ length (board_rules board.now).target }
    requires room { (pass_view pass.old).calls + 16 ≤ 2 ^ 48 }
    requires over { IsQuestionOver (board_rules board.now).field (length letters.now) (question_of question.now) }
    ensures own { IsPassOf board.now pass.new }
    ensures answers { (a : Asked) → question_in a ≡ Some (question_of question.now) → AnswersBy (rules_view (board_rules board.now)) letters.now (Ok a) (pass_view pass.old) (pass_view pass.new) (response_text result) }
    ensures writable { CanBeWritten result }
{
    match board.ask(rt, pass) {
        Ok(shot) => match found_text(alloc, board.rules(), &shot.tables, letters, question) {
            Ok(text) => Response::Found(text),
            Err(NoMemory) => Response::NoMemory(pass.seen()),
        },
        Err(NoMemory) => Response::NoMemory(pass.seen()),
    }
}

/// Answers a line by what it asks for, unless it ends the session.
pub fn take_request<R: Wait>(
    rt: &R,
    alloc: Global,
    board: &Board,
    pass: &mut Pass,
    letters: &Letters,
    request: &Request,
) -> Taken
    requires own { IsPassOf board.now pass.old }
    requires rules { AreRules (rules_view (board_rules board.now)) }
    requires letters { length letters.now ≡ length (board_rules board.now).target }
    requires room { (pass_view pass.old).calls + 16 ≤ 2 ^ 48 }
    requires over { MayBeAsked (board_rules board.now).field (length letters.now) request.now }
    ensures own { IsPassOf board.now pass.new }
    ensures takes { (asks : Result Asked CommandError) → AsksFor request.now asks → TakesAsked result (rules_view (board_rules board.now)) letters.now asks (pass_view pass.old) (pass_view pass.new) }
    ensures fine { IsFine result }
{
    match request {
        Request::Nothing => Taken::Response(Response::Nothing),
        Request::Question(question) => {
            Taken::Response(answer(rt, alloc, board, pass, letters, question))
        }
        Request::Await(degree) => Taken::Response(await_degree(rt, board, pass, *degree)),
        Request::Quit => Taken::Quit,
        Request::Refused(error) => Taken::Response(Response::Refused(Refusal::Command(*error))),
        Request::NoMemory => Taken::Response(Response::NoMemory(pass.seen())),
    }
}
