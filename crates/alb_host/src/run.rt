//! The top call.
ghost use Rattle.std.specs.Prelude.{◌≡◌, ◌≢◌, ◌↔◌, ◌<◌, ◌≤◌, None, Some, Err, IfOk, length};
ghost use Rattle.alb_words.specs.Words.{texts_of};
ghost use Rattle.alb_host.specs.Words.{host_words, words_view};
ghost use Rattle.alb_host.specs.Report.{report_of};
ghost use Rattle.alb_host.specs.Runs.{Runs, Reports, HasNoRun};
ghost use Rattle.alb_host.specs.Steps.{status_of_stop, refusal_of_stop, IsReportOf};
ghost use Rattle.alb_io.specs.Causes.{Rose};
ghost use Rattle.alb_problem.specs.Problem.{IsAccepted};
ghost use Rattle.alb_problem_file.specs.Read.{ReadsProblem};

use crate::files::open_sessions;
use crate::jobs::INPUT_LIMIT;
use crate::report::{HostReport, write_report};
use crate::sessions::{Ran, run_sessions};
use crate::status::run_status;
use crate::words::{HostWords, read_host_words};
use alb_io::{Desk, LineReader, OpenError, Sink, Source, Status};
use alb_mono::NoMemory;
use alb_pool::Gate;
use alb_problem::Problem;
use alb_problem_file::{ProblemStop, read_problem};
use alb_words::WordsFault;
use std::alloc::Global;
use std::sync::Wait;
use std::thread::Threads;

// A run without a building.
fn stopped<I: Drop, K: Drop>(
    alloc: Global,
    status: Status,
    refusal: Option<(u64, u32)>,
    problem: Option<I>,
) -> HostReport<I, K>
    ensures status { result.status ≡ status }
    ensures refusal { result.refusal ≡ refusal }
    ensures problem { result.problem ≡ problem }
    ensures build { result.build ≡ None }
    ensures none { HasNoRun result }
{
    HostReport {
        status,
        refusal,
        problem,
        degree: 0,
        build: None,
        board: None,
        builder: None,
        sessions: Vec::new(alloc),
    }
}

// A run whose problem file gives no problem.
fn refused<I: Drop, K: Drop>(alloc: Global, why: ProblemStop, source: I) -> HostReport<I, K>
    ensures status { result.status ≡ status_of_stop why }
    ensures refusal { result.refusal ≡ refusal_of_stop why }
    ensures problem { result.problem ≡ Some source }
    ensures build { result.build ≡ None }
    ensures none { HasNoRun result }
{
    match why {
        ProblemStop::Refused { line, code } => stopped(
            alloc,
            Status::Refused,
            Some((line, code)),
            Some(source),
        ),
        ProblemStop::ReadFault => stopped(alloc, Status::ReadFault, None, Some(source)),
        ProblemStop::InputLimit => stopped(alloc, Status::InputLimit, None, Some(source)),
        ProblemStop::NoMemory => stopped(alloc, Status::NoMemory, None, Some(source)),
    }
}

// The report of a building with its sessions.
fn built_report<I: Drop, K: Drop>(ran: Ran<I, K>, source: I) -> HostReport<I, K>
    ensures { IsReportOf ran source result }
{
    let status = run_status(&ran.end, &ran.sessions);
    let degree = ran.builder.seen();
    let Ran {
        board,
        builder,
        end,
        sessions,
    } = ran;
    HostReport {
        status,
        refusal: None,
        problem: Some(source),
        degree,
        build: Some(end),
        board: Some(board),
        builder: Some(builder),
        sessions,
    }
}

// The problem of a file.
fn read_file<S: Source>(alloc: Global, source: &mut S) -> Result<Problem, ProblemStop>
    ensures reads { ReadsProblem result (S.left source.old) (S.left source.new) }
    ensures accepted { IfOk result (λ q. IsAccepted q) }
    ensures read_fault { result ≡ Err ProblemStop.ReadFault → Rose (S.faults source.old) (S.faults source.new) }
    ensures sound { S.is_sound source.old → result ≢ Err ProblemStop.ReadFault }
{
    match LineReader::open(alloc, INPUT_LIMIT) {
        Ok(mut reader) => read_problem(alloc, &mut reader, source),
        Err(NoMemory) => Err(ProblemStop::NoMemory),
    }
}

// Does what the words say.
fn run_words<R: Threads + Wait + Sync, D: Desk, G: Gate>(
    rt: &R,
    alloc: Global,
    said: &HostWords,
    desk: &mut D,
    gate: &G,
) -> HostReport<D::In, D::Out>
where
    D::In: Drop,
    D::Out: Drop,
    requires some_worker { 0 < said.now.workers }
    requires few_workers { said.now.workers ≤ 16 }
    requires few { length said.now.sessions.items ≤ 8 }
    ensures runs { Runs D.In.Source D.Out.Sink (D.files desk.old) (D.is_sound desk.old) (Some (words_view said.now)) (D.faults desk.old) (D.faults desk.new) result }
    ensures same_files { D.files desk.new ≡ D.files desk.old }
    ensures later { D.faults desk.old ≤ D.faults desk.new }
{
    let mut source = match desk.open(alloc, said.problem) {
        Ok(source) => source,
        Err(OpenError::Failed) => return stopped(alloc, Status::OpenFault, None, None),
        Err(OpenError::NoMemory) => return stopped(alloc, Status::NoMemory, None, None),
    };
    let problem = match read_file(alloc, &mut source) {
        Ok(problem) => problem,
        Err(why) => return refused(alloc, why, source),
    };
    let files = match open_sessions(alloc, desk, &said.sessions) {
        Ok(files) => files,
        Err(OpenError::Failed) => return stopped(alloc, Status::OpenFault, None, Some(source)),
        Err(OpenError::NoMemory) => return stopped(alloc, Status::NoMemory, None, Some(source)),
    };
    match run_sessions(rt, alloc, problem, files, said.workers, gate) {
        Ok(ran) => built_report(ran, source),
        Err(NoMemory) => stopped(alloc, Status::NoMemory, None, Some(source)),
    }
}

// The report of a run by the words of a command line.
fn run_report<R: Threads + Wait + Sync, D: Desk, G: Gate>(
    rt: &R,
    alloc: Global,
    words: &[String],
    desk: &mut D,
    gate: &G,
) -> HostReport<D::In, D::Out>
where
    D::In: Drop,
    D::Out: Drop,
    ensures runs { Runs D.In.Source D.Out.Sink (D.files desk.old) (D.is_sound desk.old) (host_words (texts_of words.now)) (D.faults desk.old) (D.faults desk.new) result }
    ensures usage { result.status ≢ Status.NoMemory → (result.status ≡ Status.Usage) ↔ (host_words (texts_of words.now) ≡ None) }
    ensures same_files { D.files desk.new ≡ D.files desk.old }
    ensures later { D.faults desk.old ≤ D.faults desk.new }
{
    match read_host_words(alloc, words) {
        Ok(said) => run_words(rt, alloc, &said, desk, gate),
        Err(WordsFault::Usage) => stopped(alloc, Status::Usage, None, None),
        Err(WordsFault::NoMemory) => stopped(alloc, Status::NoMemory, None, None),
    }
}

/// Does all that the program does: the words of the command line, a desk of files, what is called before a block is made, and an
/// output for the report; the status, and what is left of the run. One problem is read from a file, its tables are built by
/// workers, and meanwhile sessions answer the lines of files, each into a file of its own, over one board.
/// The status is Done, unless the words say nothing (Usage), the problem file has a refused line (Refused) or cannot be read
/// (ReadFault, InputLimit), a file cannot be opened (OpenFault), a session did not come to its end (ReadFault, WriteFault,
/// InputLimit), memory ran out (NoMemory), or the report cannot be written (ReportFault).
pub fn run_host<R: Threads + Wait + Sync, D: Desk, G: Gate, K: Sink>(
    rt: &R,
    alloc: Global,
    words: &[String],
    desk: &mut D,
    gate: &G,
    output: &mut K,
) -> (Status, HostReport<D::In, D::Out>)
where
    D::In: Drop,
    D::Out: Drop,
    // The report is the last that is written, and its status is answered, unless it could not be written.
    ensures reports { Reports K.Sink output.old output.new (report_of result.1) result.0 }
    // By the words: the problem file, the building and its sessions; or why there was none.
    ensures runs { Runs D.In.Source D.Out.Sink (D.files desk.old) (D.is_sound desk.old) (host_words (texts_of words.now)) (D.faults desk.old) (D.faults desk.new) result.1 }
    // Usage comes exactly where the words say nothing, unless memory ran out.
    ensures usage { result.1.status ≢ Status.NoMemory → (result.1.status ≡ Status.Usage) ↔ (host_words (texts_of words.now) ≡ None) }
    ensures same_files { D.files desk.new ≡ D.files desk.old }
    ensures later { D.faults desk.old ≤ D.faults desk.new }
{
    let report = run_report(rt, alloc, words, desk, gate);
    match write_report(output, &report) {
        Ok(()) => (report.status, report),
        Err(_) => (Status::ReportFault, report),
    }
}
