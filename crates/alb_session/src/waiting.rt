//! Waiting for a degree.
ghost use Rattle.std.specs.Prelude.{◌≡◌, ◌+◌, ◌^◌, ◌<◌, ◌≤◌, List, ℕ, Ok};
ghost use Rattle.alb_board.specs.Passes.{board_rules, IsPassOf, pass_view};
ghost use Rattle.alb_script.specs.Asked.{Await};
ghost use Rattle.alb_session.specs.View.{response_text, AnswersBy, CanBeWritten, Looks, LooksBy};
ghost use Rattle.alb_table.specs.RightTable.{rules_view};

use crate::response::Response;
use alb_board::{Board, Pass, Shot};
use alb_mono::NoMemory;
use std::sync::Wait;

/// What one look at the board shows.
#[derive(Drop)]
pub enum Look {
    /// The degree is not there, and no end is kept.
    Early,
    /// The response: whether the degree is there.
    Told(Response),
    /// There was no memory for it.
    NoMemory,
}

// What a shot tells of a degree.
fn look_of(shot: &Shot, degree: u32) -> Look
    ensures { LooksBy result degree shot.now }
{
    let there = shot.tables.degree();
    if degree <= there {
        return Look::Told(Response::Ready(there));
    }
    match shot.end {
        Some(_) => Look::Told(Response::Stopped(there)),
        None => Look::Early,
    }
}

// Looks at the board once.
fn look_once<R: Wait>(rt: &R, board: &Board, pass: &mut Pass, degree: u32) -> Look
    requires own { IsPassOf board.now pass.old }
    requires room { (pass_view pass.old).calls < 2 ^ 48 }
    ensures own { IsPassOf board.now pass.new }
    ensures looks { Looks result (board_rules board.now) degree (pass_view pass.old) (pass_view pass.new) }
{
    match board.ask(rt, pass) {
        Ok(shot) => look_of(&shot, degree),
        Err(NoMemory) => Look::NoMemory,
    }
}

/// Asks until the degree is there or an end is kept.
pub fn await_degree<R: Wait>(rt: &R, board: &Board, pass: &mut Pass, degree: u32) -> Response
    requires own { IsPassOf board.now pass.old }
    requires room { (pass_view pass.old).calls + 16 ≤ 2 ^ 48 }
    ensures own { IsPassOf board.now pass.new }
    ensures answers { (letters : List ℕ) → AnswersBy (rules_view (board_rules board.now)) letters (Ok (Await degree)) (pass_view pass.old) (pass_view pass.new) (response_text result) }
    ensures writable { CanBeWritten result }
{
    'looks: loop {
        match look_once(rt, board, pass, degree) {
            Look::Early => board.wait_change(rt, pass),
            Look::Told(response) => return response,
            Look::NoMemory => return Response::NoMemory(pass.seen()),
        }
    }
}
