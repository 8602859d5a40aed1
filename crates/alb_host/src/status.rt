//! How a run with a building ends.
ghost use Rattle.std.specs.Prelude.{◌≡◌, map};
ghost use Rattle.alb_table.specs.End.{end_of};
ghost use Rattle.alb_host.specs.Report.{session_end};
ghost use Rattle.alb_host.specs.Runs.{status_of_end, status_after};

use crate::report::SessionReport;
use alb_io::Status;
use alb_session::SessionEnd;
use alb_table::BuildEnd;

// How it ends where all sessions came to their ends.
fn status_of_end(end: &BuildEnd) -> Status
    ensures { result ≡ status_of_end (end_of end.now) }
{
    match end {
        BuildEnd::NoMemory => Status::NoMemory,
        _ => Status::Done,
    }
}

/// The status after a building and its sessions.
pub fn run_status<I: Drop, K: Drop>(end: &BuildEnd, sessions: &[SessionReport<I, K>]) -> Status
    ensures { result ≡ status_after (end_of end.now) (map session_end sessions.now) }
{
    for i in 0..sessions.len() {
        match sessions[i].end {
            SessionEnd::Ended => {}
            SessionEnd::ReadFault => return Status::ReadFault,
            SessionEnd::WriteFault => return Status::WriteFault,
            SessionEnd::InputLimit => return Status::InputLimit,
        }
    }
    status_of_end(end)
}
