//! The builder and the sessions as jobs that run side by side.
ghost use Rattle.std.specs.Prelude.{◌≡◌, All, IfOk, length};
ghost use Rattle.alb_board.specs.Passes.{board_rules};
ghost use Rattle.alb_table.specs.RightTable.{rules_view, AreRules};
ghost use Rattle.alb_host.specs.Steps.{IsStarted, HasServed, IsCommon, IsReady, IsDone, AreDone};

use crate::files::Opened;
use crate::report::SessionReport;
use alb_board::{Board, Pass};
use alb_builder::build_on_board;
use alb_io::{LineReader, NoMemory, Sink, Source};
use alb_mono::Letters;
use alb_pool::Gate;
use alb_session::serve;
use alb_table::{BuildEnd, Tables};
use std::alloc::Global;
use std::marker::Send;
use std::sync::{Arc, Wait};
use std::thread;
use std::thread::Threads;

/// The most bytes of one input.
pub const INPUT_LIMIT: u64 = 1 << 40;

/// What a session begins with.
#[derive(Drop)]
pub struct Start<I: Drop, K: Drop> {
    /// What it reads, and what it writes.
    pub files: Opened<I, K>,
    /// The reader of its lines.
    pub reader: LineReader,
    /// Its pass.
    pub pass: Pass,
}

/// What runs in a thread of its own, where one can be made.
#[derive(Drop)]
pub enum Job<I: Drop, K: Drop> {
    Build(Pass, Arc<Tables>),
    Serve(Start<I, K>),
}

/// What a job leaves.
#[derive(Drop)]
pub enum Done<I: Drop, K: Drop> {
    Built(Pass, BuildEnd),
    Served(SessionReport<I, K>),
}

// Serves a session.
fn serve_session<R: Wait, I: Source + Drop, K: Sink + Drop>(
    rt: &R,
    alloc: Global,
    board: &Board,
    letters: &Letters,
    start: Start<I, K>,
) -> SessionReport<I, K>
    requires rules { AreRules (rules_view (board_rules board.now)) }
    requires letters { length letters.now ≡ length (board_rules board.now).target }
    requires started { IsStarted board.now start }
    ensures served { HasServed I.Source K.Sink board.now letters.now start result }
{
    let Start {
        files,
        reader,
        pass,
    } = start;
    let Opened { source, sink } = files;
    let mut reader = reader;
    let mut source = source;
    let mut sink = sink;
    let mut pass = pass;
    let end = serve(
        rt,
        alloc,
        board,
        &mut pass,
        letters,
        &mut reader,
        &mut source,
        &mut sink,
    );
    SessionReport {
        end,
        source,
        sink,
        pass,
    }
}

// Does a job.
fn work<R: Threads + Wait + Sync, G: Gate, I: Source + Drop, K: Sink + Drop>(
    rt: &R,
    alloc: Global,
    board: &Board,
    letters: &Letters,
    workers: u32,
    gate: &G,
    job: Job<I, K>,
) -> Done<I, K>
    requires common { IsCommon board.now letters.now workers }
    requires ready { IsReady board.now job }
    ensures { IsDone I.Source K.Sink board.now letters.now job result }
{
    match job {
        Job::Build(pass, first) => {
            let mut pass = pass;
            let end = build_on_board(rt, alloc, board, &mut pass, first, workers, gate);
            Done::Built(pass, end)
        }
        Job::Serve(start) => Done::Served(serve_session(rt, alloc, board, letters, start)),
    }
}

/// Does all jobs, each in a thread of its own where one can be made, and else one after the other. `map_vec` keeps the last job of its
/// list to the thread that calls it, and does it first where no thread can be made; so it gets the jobs from the last to the first,
/// and the first job waits for none of the others.
pub fn work_all<R: Threads + Wait + Sync, G: Gate, I: Source + Send + Drop, K: Sink + Send + Drop>(
    rt: &R,
    alloc: Global,
    board: &Board,
    letters: &Letters,
    workers: u32,
    gate: &G,
    jobs: Vec<Job<I, K>>,
) -> Result<Vec<Done<I, K>>, NoMemory>
    requires common { IsCommon board.now letters.now workers }
    requires ready { All (IsReady board.now) jobs.items }
    ensures { IfOk result (λ v. AreDone I.Source K.Sink board.now letters.now jobs.items v.items) }
{
    let mut jobs = jobs;
    jobs.reverse();
    let mut done = thread::map_vec(
        rt,
        jobs,
        &|job: Job<I, K>| -> Done<I, K>
            requires { IsCommon board.now letters.now workers × IsReady board.now job }
            ensures { IsDone I.Source K.Sink board.entry.now letters.entry.now job result }
        { work(rt, alloc, board, letters, workers, gate, job) },
    )?;
    done.reverse();
    Ok(done)
}
