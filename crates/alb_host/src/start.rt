//! What is made before a job runs: the board, the passes, the readers and the jobs.
ghost use Rattle.std.specs.Prelude.{◌≡◌, ◌+◌, ◌<◌, ◌≤◌, true, [], ◌∷◌, None, All, IfOk, OnOk, length, map};
ghost use Rattle.alb_board.specs.Passes.{IsPassOf, pass_view};
ghost use Rattle.alb_host.specs.Steps.{IsStarted, IsSplitFrom, session_files, builder_job, serve_job};

use crate::files::Opened;
use crate::jobs::{INPUT_LIMIT, Job, Start};
use alb_board::{Board, Pass};
use alb_io::{LineReader, NoMemory};
use alb_table::Tables;
use std::alloc::Global;
use std::sync::Arc;

// What a session begins with: a new reader and a new pass.
fn start<I: Drop, K: Drop>(
    alloc: Global,
    board: &Board,
    pass: &mut Pass,
    files: Opened<I, K>,
) -> Result<Start<I, K>, NoMemory>
    requires own { IsPassOf board.now pass.old }
    requires builder { (pass_view pass.old).builder ≡ true }
    requires room { (pass_view pass.old).passes < 16 }
    requires seen { (pass_view pass.old).seen ≡ 1 }
    requires unended { (pass_view pass.old).end ≡ None }
    ensures started { IfOk result (IsStarted board.now) }
    ensures files { IfOk result (λ s. s.files ≡ files) }
    ensures own { OnOk result (IsPassOf board.now pass.new) }
    ensures split { OnOk result (pass_view pass.new ≡ record (pass_view pass.old) { passes = (pass_view pass.old).passes + 1 }) }
{
    let reader = LineReader::open(alloc, INPUT_LIMIT)?;
    let own = board.split(pass)?;
    Ok(Start {
        files,
        reader,
        pass: own,
    })
}

/// What each session begins with. The builder's pass has split nothing before.
pub fn start_all<I: Drop, K: Drop>(
    alloc: Global,
    board: &Board,
    pass: &mut Pass,
    files: Vec<Opened<I, K>>,
) -> Result<Vec<Start<I, K>>, NoMemory>
    requires own { IsPassOf board.now pass.old }
    requires builder { (pass_view pass.old).builder ≡ true }
    requires alone { (pass_view pass.old).passes ≡ 1 }
    requires seen { (pass_view pass.old).seen ≡ 1 }
    requires unended { (pass_view pass.old).end ≡ None }
    requires few { length files.items ≤ 8 }
    ensures started { IfOk result (λ v. All (IsStarted board.now) v.items) }
    ensures files { IfOk result (λ v. map session_files v.items ≡ files.items) }
    ensures own { OnOk result (IsPassOf board.now pass.new) }
    ensures split { OnOk result (IsSplitFrom (pass_view pass.old) (pass_view pass.new)) }
{
    let mut starts = Vec::with_capacity(alloc, files.len())?;
    for opened in files {
        let started = start(alloc, board, pass, opened)?;
        starts.push(started)?;
    }
    Ok(starts)
}

/// The jobs, that of the builder first.
pub fn line_up<I: Drop, K: Drop>(
    alloc: Global,
    pass: Pass,
    first: Arc<Tables>,
    starts: Vec<Start<I, K>>,
) -> Result<Vec<Job<I, K>>, NoMemory>
    ensures { IfOk result (λ v. v.items ≡ builder_job pass first ∷ map serve_job starts.items) }
{
    let mut jobs = Vec::new(alloc);
    jobs.push(Job::Build(pass, first))?;
    for start in starts {
        jobs.push(Job::Serve(start))?;
    }
    Ok(jobs)
}
