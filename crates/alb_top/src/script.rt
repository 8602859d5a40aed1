//! A script as far as it was read, and what its commands make of it.
ghost use Rattle.std.specs.Prelude.{◌≡◌, ◌≢◌, ◌≤◌, IfOk, IfErr, IfSome, IfNone, Some, None, true, false, length, sum};
ghost use Rattle.alb_problem.specs.Problem.{IsAccepted};
ghost use Rattle.alb_problem.specs.Builder.{IsSoundProblem};
ghost use Rattle.alb_script.specs.Asked.{asked, view, command_word, or_error, Gives, IsCommandOver, IsPlain, Build, Quit};
ghost use Rattle.alb_judge.specs.Views.{judgement};
ghost use Rattle.alb_question.specs.Views.{shot_of};
ghost use Rattle.alb_top.specs.Does.{script_form};
ghost use Rattle.alb_top.specs.Script.{Nothing, Judged, Refused, start, respond, obey, Obeys, letters_of, total_of};
ghost use Rattle.alb_top.specs.View.{response_of, refusal_of, state_at, IsWritable, IsWritten, CanBeWritten, Begins, IsStatement, IsTimely, IsOrder, IsQuestion, AsksFor, MayBeAsked};

use crate::asks::{Asks, asks_of, question_in, refused};
use crate::mode::Mode;
use crate::response::Response;
use crate::statement::state_problem;
use crate::workers::Workers;
use alb_judge::Verdict;
use alb_mono::{Letters, NoMemory};
use alb_problem::{FinishError, Problem, ProblemBuilder};
use alb_question::{Topic, build_topic};
use alb_script::{BadCommand, Command, Form, Refusal, ScriptPlace, read_line};
use gf_field::Field;
use std::alloc::Global;
use std::thread::Threads;

/// How far a script has come.
#[derive(Drop)]
pub enum Stage {
    /// The problem is being stated.
    Stating(ProblemBuilder),
    /// Claims are made about the problem.
    Claiming(Problem),
    /// Questions are asked about the problem, by its table.
    Asking(Topic),
}

// What stands after the end of an accepted problem, and the response: a batch builds its table.
fn begin<R: Threads + Sync>(
    rt: &R,
    alloc: Global,
    mode: Mode,
    workers: Workers,
    problem: Problem,
) -> Result<(Response, Stage), NoMemory>
    requires accepted { IsAccepted problem }
    requires reads { script_form mode ≢ None }
    ensures { IfOk result (λ r. Begins mode problem r.0 r.1) }
{
    match mode {
        Mode::Batch => {
            let topic = build_topic(rt, alloc, workers.number(), problem)?;
            Ok((Response::Built, Stage::Asking(topic)))
        }
        Mode::Check => Ok((Response::Ready, Stage::Claiming(problem))),
        Mode::Sample(_) => unreachable!(),
    }
}

// What a line of at most 65,536 bytes is, by the words that stand after `build`.
fn read_about(
    alloc: Global,
    line: &[u8],
    form: Form,
    problem: &Problem,
) -> Result<Command, BadCommand>
    requires { length line.now ≤ 65536 }
    ensures exact { Gives view (or_error result) (asked form true (sum problem.now.rules.target) problem.now.rules.field problem.now.letters line.now) }
    ensures read { IfOk result (λ c. IsCommandOver problem.now.rules.field (length problem.now.letters) c) }
    ensures plain { IfErr result (λ bad. IsPlain bad.error) }
    ensures word { IfErr result (λ bad. bad.word ≡ command_word form line.now) }
{
    let place = ScriptPlace {
        form,
        built: true,
        total: problem.rules.target.degree(),
    };
    read_line(alloc, line, place, &problem.rules.field, &problem.letters)
}

/// A script as far as it was read.
#[derive(Drop)]
pub struct Script {
    mode: Mode,
    workers: Workers,
    form: Form,
    stage: Stage,
    closed: bool,
    clean: bool,
}

impl Script {
    ghost use Rattle.alb_top.specs.View.{state, IsScript};

    /// The script of a mode that reads scripts of this form, before its first line.
    pub fn new(alloc: Global, mode: Mode, form: Form, workers: Workers) -> Script
        requires { script_form mode ≡ Some form }
        ensures value { state result ≡ start mode form }
        ensures script { IsScript result }
    {
        Script {
            mode,
            workers,
            form,
            stage: Stage::Stating(ProblemBuilder::new(alloc)),
            closed: false,
            clean: true,
        }
    }

    /// The problem of a check, where it is accepted.
    pub fn problem(&self) -> Option<&Problem>
        requires { IsScript self.now }
        ensures some { IfSome result (λ q. self.now.stage ≡ Stage.Claiming q.now) }
        ensures none { IfNone result ((state self.now).mode ≡ Mode.Check → (state self.now).built ≡ false) }
    {
        match &self.stage {
            Stage::Stating(_) => None,
            Stage::Claiming(problem) => Some(problem),
            Stage::Asking(_) => None,
        }
    }

    /// The problem of a batch with its table, where it is built.
    pub fn topic(&self) -> Option<&Topic>
        ensures some { IfSome result (λ t. self.now.stage ≡ Stage.Asking t.now) }
        ensures none { IfNone result ((state self.now).shot ≡ None) }
    {
        match &self.stage {
            Stage::Stating(_) => None,
            Stage::Claiming(_) => None,
            Stage::Asking(topic) => Some(topic),
        }
    }

    /// Whether no further line is read.
    pub fn is_closed(&self) -> bool
        ensures { result ≡ (state self.now).closed }
    {
        self.closed
    }

    /// Whether no line was refused and no evidence rejected.
    pub fn is_clean(&self) -> bool
        ensures { result ≡ (state self.now).clean }
    {
        self.clean
    }

    // What a line of at most 65,536 bytes is, by the words that stand here.
    fn command(&self, alloc: Global, line: &[u8]) -> Result<Command, BadCommand>
        requires { length line.now ≤ 65536 }
        ensures exact { Gives view (or_error result) (asked (state self.now).form (state self.now).built (total_of (state self.now)) (state self.now).problem.field (letters_of (state self.now)) line.now) }
        ensures read { IfOk result (λ c. IsCommandOver (state self.now).problem.field (length (letters_of (state self.now))) c) }
        ensures plain { IfErr result (λ bad. IsPlain bad.error) }
        ensures word { IfErr result (λ bad. bad.word ≡ command_word (state self.now).form line.now) }
    {
        match &self.stage {
            Stage::Stating(builder) => {
                let unnamed = Letters::of(&[]);
                let place = ScriptPlace {
                    form: self.form,
                    built: false,
                    total: 0,
                };
                read_line(alloc, line, place, builder.field(), &unnamed)
            }
            Stage::Claiming(problem) => read_about(alloc, line, self.form, problem),
            Stage::Asking(topic) => read_about(alloc, line, self.form, &topic.problem),
        }
    }

    /// What a line of at most 65,536 bytes asks for.
    pub fn asks(&self, alloc: Global, line: &[u8]) -> Result<Asks, NoMemory>
        requires { length line.now ≤ 65536 }
        ensures asks { IfOk result (λ a. AsksFor a (state self.now) line.now) }
        ensures timely { IfOk result (λ a. MayBeAsked a (state self.now)) }
    {
        match self.command(alloc, line) {
            Ok(command) => Ok(asks_of(command)),
            Err(bad) => refused(bad),
        }
    }

    /// The script after a refused line, and the response.
    pub fn refuse(self, refusal: Refusal) -> (Response, Script)
        requires written { CanBeWritten refusal }
        requires script { IsScript self }
        ensures responds { (response_of result.0, state result.1) ≡ respond (Refused (refusal_of refusal)) (state self) }
        ensures writable { IsWritable (state result.1) result.0 }
        ensures script { IsScript result.1 }
    {
        let mut next = self;
        next.clean = false;
        (Response::Refused(refusal), next)
    }

    /// The script after the block of a claim, and the response.
    pub fn judged(self, verdict: Verdict) -> (Response, Script)
        requires script { IsScript self }
        ensures response { result.0 ≡ Response.Judged verdict }
        ensures responds { (Judged (judgement verdict), state result.1) ≡ respond (Judged (judgement verdict)) (state self) }
        ensures script { IsScript result.1 }
    {
        let is_accepted = verdict.is_accepted();
        let mut next = self;
        next.clean = is_accepted && next.clean;
        (Response::Judged(verdict), next)
    }

    // The script after a statement about the problem, and the response.
    fn state(self, command: Command) -> Result<(Response, Script), NoMemory>
        requires statement { IsStatement (view command) }
        requires script { IsScript self }
        requires stating { (state self).built ≡ false }
        requires read { IsCommandOver (state self).problem.field (length (letters_of (state self))) command }
        ensures responds { IfOk result (λ r. (response_of r.0, state r.1) ≡ obey (state self) (view command)) }
        ensures written { IfOk result (λ r. IsWritten r.0) }
        ensures script { IfOk result (λ r. IsScript r.1) }
    {
        let mut next = self;
        let Stage::Stating(builder) = &mut next.stage else {
            unreachable!();
        };
        let response = state_problem(builder, command)?;
        next.clean = response.is_clean() && next.clean;
        Ok((response, next))
    }

    /// The script after a command other than a claim, and the response.
    pub fn obey<R: Threads + Sync>(
        self,
        rt: &R,
        alloc: Global,
        command: Command,
    ) -> Result<(Response, Script), NoMemory>
        requires order { IsOrder (view command) }
        requires timely { IsTimely (state self).form (state self).built (view command) }
        requires read { IsCommandOver (state self).problem.field (length (letters_of (state self))) command }
        requires script { IsScript self }
        requires sound { IsSoundProblem (state self).problem }
        ensures responds { IfOk result (λ r. Obeys (state self) (view command) (response_of r.0) (state r.1)) }
        ensures writable { IfOk result (λ r. IsWritable (state r.1) r.0) }
        ensures script { IfOk result (λ r. IsScript r.1) }
    {
        match command {
            Command::Blank => Ok((Response::Nothing, self)),
            Command::Build => self.build(rt, alloc),
            Command::Quit => Ok((Response::Nothing, self.close())),
            Command::Polynomial(_) | Command::Prove(_) | Command::Dimensions | Command::Table => {
                self.answer(alloc, command)
            }
            statement => self.state(statement),
        }
    }

    // The script after a question, and the response.
    fn answer(self, alloc: Global, command: Command) -> Result<(Response, Script), NoMemory>
        requires question { IsQuestion (view command) }
        requires timely { IsTimely (state self).form (state self).built (view command) }
        requires read { IsCommandOver (state self).problem.field (length (letters_of (state self))) command }
        requires script { IsScript self }
        requires sound { IsSoundProblem (state self).problem }
        ensures responds { IfOk result (λ r. Obeys (state self) (view command) (response_of r.0) (state r.1)) }
        ensures writable { IfOk result (λ r. IsWritable (state r.1) r.0) }
        ensures script { IfOk result (λ r. IsScript r.1) }
    {
        let mut next = self;
        let Stage::Asking(topic) = &mut next.stage else {
            unreachable!();
        };
        let question = question_in(command);
        let finding = topic.answer(alloc, &question)?;
        Ok((Response::Found(finding), next))
    }

    // The script after its end.
    fn close(self) -> Script
        requires script { IsScript self }
        ensures responds { (Nothing, state result) ≡ obey (state self) Quit }
        ensures script { IsScript result }
    {
        let mut next = self;
        next.closed = true;
        next
    }

    // The script after the end of the problem, and the response.
    fn build<R: Threads + Sync>(self, rt: &R, alloc: Global) -> Result<(Response, Script), NoMemory>
        requires script { IsScript self }
        requires stating { (state self).built ≡ false }
        ensures responds { IfOk result (λ r. Obeys (state self) Build (response_of r.0) (state r.1)) }
        ensures writable { IfOk result (λ r. IsWritable (state r.1) r.0) }
        ensures script { IfOk result (λ r. IsScript r.1) }
    {
        let Script {
            mode,
            workers,
            form,
            stage,
            closed,
            clean,
        } = self;
        let Stage::Stating(builder) = stage else {
            unreachable!();
        };
        match builder.finish() {
            Ok(problem) => {
                let (response, stage) = begin(rt, alloc, mode, workers, problem)?;
                let next = Script {
                    mode,
                    workers,
                    form,
                    stage,
                    closed,
                    clean,
                };
                Ok((response, next))
            }
            Err(FinishError { builder, error }) => {
                let next = Script {
                    mode,
                    workers,
                    form,
                    stage: Stage::Stating(builder),
                    closed,
                    clean: false,
                };
                Ok((Response::Refused(Refusal::Problem(error)), next))
            }
        }
    }
}
