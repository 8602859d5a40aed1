//! The report of a run of `albert_host`.
ghost use Rattle.std.specs.Prelude.{codes, length, map};
ghost use Rattle.alb_io.specs.Writes.{Writes};
ghost use Rattle.alb_evidence.specs.Texts.{counted};
ghost use Rattle.alb_host.specs.Report.{refused_text, stop_text, end_text, session_text, report_text, report_of, session_end};

use alb_answer::write_built;
use alb_board::{Board, Pass};
use alb_io::{Sink, Status, WriteFault, put_all};
use alb_print::write_named;
use alb_session::SessionEnd;
use alb_table::BuildEnd;

/// What is left of a session.
#[derive(Drop)]
pub struct SessionReport<I: Drop, K: Drop> {
    /// How it ended.
    pub end: SessionEnd,
    /// What it read.
    pub source: I,
    /// What it wrote.
    pub sink: K,
    /// Its pass of the board, as it left it.
    pub pass: Pass,
}

/// What is left of a run. Where there was no building there is no board and no session, and the degree is 0.
#[derive(Drop)]
pub struct HostReport<I: Drop, K: Drop> {
    /// How the run ended.
    pub status: Status,
    /// The first line of the problem file that was refused, counted from 1, and its code.
    pub refusal: Option<(u64, u32)>,
    /// The problem file, where it was opened.
    pub problem: Option<I>,
    /// The last degree that was published.
    pub degree: u32,
    /// How the building ended.
    pub build: Option<BuildEnd>,
    /// The board that the builder and all sessions used.
    pub board: Option<Board>,
    /// The builder's pass of it.
    pub builder: Option<Pass>,
    /// The sessions, in the order of the words.
    pub sessions: Vec<SessionReport<I, K>>,
}

// Writes the line of a refused problem file.
fn write_refused<K: Sink>(sink: &mut K, line: u64, code: u32) -> Result<(), WriteFault>
    ensures { Writes K.Sink sink.old sink.new (refused_text line code) result }
{
    write_named(sink, b"refused ", u64::from(code))?;
    write_named(sink, b" in line ", line)?;
    put_all(sink, b"\n")
}

// Writes why there was no building.
fn write_stop<K: Sink>(
    sink: &mut K,
    status: Status,
    refusal: Option<(u64, u32)>,
) -> Result<(), WriteFault>
    ensures { Writes K.Sink sink.old sink.new (stop_text status refusal) result }
{
    match status {
        Status::Usage => put_all(sink, b"usage\n"),
        Status::Refused => match refusal {
            Some((line, code)) => write_refused(sink, line, code),
            None => Ok(()),
        },
        Status::OpenFault => put_all(sink, b"open fault\n"),
        Status::ReadFault => put_all(sink, b"read fault\n"),
        Status::InputLimit => put_all(sink, b"input limit\n"),
        Status::NoMemory => put_all(sink, b"no memory\n"),
        _ => Ok(()),
    }
}

// Writes how a session ended.
fn write_end<K: Sink>(sink: &mut K, end: SessionEnd) -> Result<(), WriteFault>
    ensures { Writes K.Sink sink.old sink.new (end_text end) result }
{
    match end {
        SessionEnd::Ended => put_all(sink, b" ended\n"),
        SessionEnd::ReadFault => put_all(sink, b" read fault\n"),
        SessionEnd::WriteFault => put_all(sink, b" write fault\n"),
        SessionEnd::InputLimit => put_all(sink, b" input limit\n"),
    }
}

// Writes the line of a session.
#[tactic(auto, unfolding(crate::specs::Report::session_text))]
fn write_session<K: Sink>(sink: &mut K, number: u64, end: SessionEnd) -> Result<(), WriteFault>
    ensures { Writes K.Sink sink.old sink.new (session_text number end) result }
{
    write_named(sink, b"session ", number)?;
    write_end(sink, end)
}

// Writes the lines of the sessions, which are numbered from 1.
fn write_sessions<K: Sink, I: Drop, J: Drop>(
    sink: &mut K,
    sessions: &[SessionReport<I, J>],
) -> Result<(), WriteFault>
    ensures { Writes K.Sink sink.old sink.new (counted session_text 1 (map session_end sessions.now)) result }
{
    for i in 0..sessions.len() {
        write_session(sink, i as u64 + 1, sessions[i].end)?;
    }
    Ok(())
}

/// Writes the report of a run: `usage`, `refused C in line L`, `open fault`, `read fault`, `input limit` or `no memory` where there
/// was no building; else the line that answers `build`, and a line for each session.
pub fn write_report<K: Sink, I: Drop, J: Drop>(
    sink: &mut K,
    report: &HostReport<I, J>,
) -> Result<(), WriteFault>
    // The text is appended, or at a fault a front of it.
    ensures { Writes K.Sink sink.old sink.new (report_text (report_of report.now)) result }
{
    let Some(end) = &report.build else {
        return write_stop(sink, report.status, report.refusal);
    };
    write_built(sink, report.degree, end)?;
    write_sessions(sink, &report.sessions)
}
