ghost use Rattle.std.specs.Prelude.{◌≡◌, if◌then◌else◌, ◌≢◌, ◌≤◌, true, false, Ok, Err, length, IfOk, OnErr};
ghost use Rattle.alb_io.specs.Causes.{Rose};
ghost use Rattle.alb_poly.specs.Poly.{AreResidues};
ghost use Rattle.alb_problem.specs.Problem.{problem, IsAccepted};
ghost use Rattle.alb_script.specs.Asked.{IsPolyOver, view};
ghost use Rattle.alb_top.specs.Script.{letters_of};
ghost use Rattle.alb_top.specs.Sound.{IsSoundState};
ghost use Rattle.alb_top.specs.View.{state, IsScript, CanBeWritten, MayBeAsked};
ghost use Rattle.alb_top.specs.Turns.{TakesTurn, TakesAsked, IsFine, claimed, skipping};

use crate::asks::Asks;
use crate::mode::Mode;
use crate::response::Response;
use crate::script::Script;
use alb_evidence::{SkipError, read_evidence, skip_evidence};
use alb_io::{LineReader, LineStep, NoMemory, Source};
use alb_judge::{Judged, judge};
use alb_poly::Poly;
use alb_script::{CommandError, Refusal};
use std::alloc::Global;
use std::thread::Threads;

/// What came of a turn: the response to a line, or to the end of the lines, with the script after it; or that there is no
/// line to answer.
pub enum Taken {
    Response(Response, Script),
    Last(Response, Script),
    ReadFault,
    InputLimit,
    NoMemory,
}

// A response to a line, or to the end of the lines.
fn answered(response: Response, script: Script, ended: bool) -> Taken
    ensures { result ≡ (if ended then Taken.Last response script else Taken.Response response script) }
{
    if ended {
        Taken::Last(response, script)
    } else {
        Taken::Response(response, script)
    }
}

// Reads the block of a claim, and judges it.
fn take_claim<S: Source>(
    alloc: Global,
    reader: &mut LineReader,
    script: Script,
    input: &mut S,
    claim: &Poly,
) -> Taken
    requires running { reader.old.ended ≡ false }
    requires script { IsScript script }
    requires going { (state script).closed ≡ false }
    requires sound { IsSoundState (state script) }
    requires check { (state script).mode ≡ Mode.Check }
    requires built { (state script).built ≡ true }
    requires read { IsPolyOver (state script).problem.field (length (letters_of (state script))) claim.now }
    ensures takes { TakesTurn result reader.old reader.new (claimed claim.now (state script)) (S.left input.old) (S.left input.new) }
    ensures fine { IsFine result }
    ensures later { S.faults input.old ≤ S.faults input.new }
    ensures fault { result ≡ Taken.ReadFault → Rose (S.faults input.old) (S.faults input.new) }
    ensures sound { S.is_sound input.old → S.is_sound input.new × (result ≢ Taken.ReadFault) }
{
    let Some(problem) = script.problem() else {
        unreachable!();
    };
    let given = read_evidence(alloc, reader, input, &problem.rules.field, &problem.letters);
    match judge(alloc, problem, claim, given) {
        Judged::Verdict(verdict) => {
            let (response, next) = script.judged(verdict);
            answered(response, next, reader.ended())
        }
        Judged::ReadFault => Taken::ReadFault,
        Judged::InputLimit => Taken::InputLimit,
        Judged::NoMemory => Taken::NoMemory,
    }
}

// Skips the block of a claim whose line is refused, and then refuses it.
fn skip_claim<S: Source>(
    reader: &mut LineReader,
    script: Script,
    input: &mut S,
    error: CommandError,
) -> Taken
    requires running { reader.old.ended ≡ false }
    requires script { IsScript script }
    requires going { (state script).closed ≡ false }
    requires error { CanBeWritten (Refusal.Command error) }
    ensures takes { TakesTurn result reader.old reader.new (skipping error (state script)) (S.left input.old) (S.left input.new) }
    ensures fine { IsFine result }
    ensures later { S.faults input.old ≤ S.faults input.new }
    ensures fault { result ≡ Taken.ReadFault → Rose (S.faults input.old) (S.faults input.new) }
    ensures sound { S.is_sound input.old → S.is_sound input.new × (result ≢ Taken.ReadFault) }
{
    match skip_evidence(reader, input) {
        Ok(()) => {
            let (response, next) = script.refuse(Refusal::Command(error));
            answered(response, next, reader.ended())
        }
        Err(SkipError::ReadFault) => Taken::ReadFault,
        Err(SkipError::InputLimit) => Taken::InputLimit,
    }
}

// What a line asks for is done.
fn take_asked<R: Threads + Sync, S: Source>(
    rt: &R,
    alloc: Global,
    reader: &mut LineReader,
    script: Script,
    input: &mut S,
    asks: Asks,
) -> Taken
    requires running { reader.old.ended ≡ false }
    requires script { IsScript script }
    requires going { (state script).closed ≡ false }
    requires sound { IsSoundState (state script) }
    requires asks { MayBeAsked asks (state script) }
    ensures takes { TakesAsked result asks reader.old reader.new (state script) (S.left input.old) (S.left input.new) }
    ensures fine { IsFine result }
    ensures later { S.faults input.old ≤ S.faults input.new }
    ensures fault { result ≡ Taken.ReadFault → Rose (S.faults input.old) (S.faults input.new) }
    ensures sound { S.is_sound input.old → S.is_sound input.new × (result ≢ Taken.ReadFault) }
{
    match asks {
        Asks::Command(command) => match script.obey(rt, alloc, command) {
            Ok((response, next)) => Taken::Response(response, next),
            Err(NoMemory) => Taken::NoMemory,
        },
        Asks::Claim(claim) => take_claim(alloc, reader, script, input, &claim),
        Asks::Refusal(error) => {
            let (response, next) = script.refuse(Refusal::Command(error));
            Taken::Response(response, next)
        }
        Asks::RefusedClaim(error) => skip_claim(reader, script, input, error),
    }
}

/// Reads a line and answers it, and with a claim its block.
pub fn take_turn<R: Threads + Sync, S: Source>(
    rt: &R,
    alloc: Global,
    reader: &mut LineReader,
    script: Script,
    input: &mut S,
) -> Taken
    requires running { reader.old.ended ≡ false }
    requires script { IsScript script }
    requires going { (state script).closed ≡ false }
    requires sound { IsSoundState (state script) }
    ensures takes { TakesTurn result reader.old reader.new (state script) (S.left input.old) (S.left input.new) }
    ensures fine { IsFine result }
    ensures later { S.faults input.old ≤ S.faults input.new }
    ensures fault { result ≡ Taken.ReadFault → Rose (S.faults input.old) (S.faults input.new) }
    ensures sound { S.is_sound input.old → S.is_sound input.new × (result ≢ Taken.ReadFault) }
{
    match reader.next_line(input) {
        LineStep::Line => match script.asks(alloc, reader.line()) {
            Ok(asks) => take_asked(rt, alloc, reader, script, input, asks),
            Err(NoMemory) => Taken::NoMemory,
        },
        LineStep::TooLong => {
            let (response, next) = script.refuse(Refusal::TooLong);
            Taken::Response(response, next)
        }
        LineStep::End => Taken::Last(Response::Nothing, script),
        LineStep::ReadFault => Taken::ReadFault,
        LineStep::InputLimit => Taken::InputLimit,
    }
}
