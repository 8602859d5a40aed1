//! Makes the real files and the output, and calls the top call.
#![tactic(auto)]

ghost use Rattle.std.specs.Prelude.{◌≡◌, ◌≢◌, ◌↔◌, [], None};
ghost use Rattle.std.specs.IoError.{error_kind};
ghost use Rattle.alb_host.specs.Runs.{Reports};

use alb_host::{HostReport, run_host, write_report};
use alb_io::{FileDesk, MemSink, MemSource, Sink, Status, StdSink};
use alb_pool::NoGate;
use std::alloc::Global;
use std::io::ErrorKind;
use std::process::ExitCode;
use std::rt::Env;
use std::{env, io};

// The words after the program's name.
fn words<R: Env + AllocGlobal>(rt: &R) -> io::Result<Vec<String>> {
    let mut words = Vec::new(rt.alloc());
    for word in env::args(rt)?.skip(1) {
        words.push(word)?;
    }
    Ok(words)
}

// How the program ends where its words cannot be read: memory ran out, or one of them is no text.
fn unread(error: &io::Error) -> Status
    ensures memory { (result ≡ Status.NoMemory) ↔ (error_kind error.now ≡ ErrorKind.OutOfMemory) }
    ensures text { (result ≡ Status.Usage) ↔ (error_kind error.now ≢ ErrorKind.OutOfMemory) }
{
    match error.kind() {
        ErrorKind::OutOfMemory => Status::NoMemory,
        _ => Status::Usage,
    }
}

// Reports why the top call cannot be made, and answers how the program ends.
fn stop<K: Sink>(alloc: Global, output: &mut K, status: Status) -> Status
    ensures { Reports K.Sink output.old output.new (record { status = status; refusal = None; degree = 0; build = None; sessions = [] }) result }
{
    let report: HostReport<MemSource, MemSink> = HostReport {
        status,
        refusal: None,
        problem: None,
        degree: 0,
        build: None,
        board: None,
        builder: None,
        sessions: Vec::new(alloc),
    };
    match write_report(output, &report) {
        Ok(()) => status,
        Err(_) => Status::ReportFault,
    }
}

fn main(rt: HostRuntime) -> ExitCode {
    let alloc = rt.alloc();
    let mut output = StdSink::new(io::writer(&rt));
    let words = match words(&rt) {
        Ok(words) => words,
        Err(error) => return ExitCode::from(stop(alloc, &mut output, unread(&error)).code()),
    };
    let Ok(files) = rt.clone() else {
        return ExitCode::from(stop(alloc, &mut output, Status::NoMemory).code());
    };
    let mut desk = FileDesk::new(files);
    let (status, _report) = run_host(&rt, alloc, &words, &mut desk, &NoGate, &mut output);
    ExitCode::from(status.code())
}
