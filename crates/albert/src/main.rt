//! Makes the real input and output, and calls the top call.
#![tactic(auto)]

ghost use Rattle.std.specs.Prelude.{◌≡◌, ◌≢◌, ◌↔◌};
ghost use Rattle.std.specs.IoError.{error_kind};

use alb_io::{FileDesk, Status, StdSink, StdSource};
use alb_top::run_albert;
use std::io::ErrorKind;
use std::process::ExitCode;
use std::rt::Env;
use std::{env, io};

// The words after the program's name.
fn words<R: Env + AllocGlobal>(rt: &R) -> io::Result<Vec<String>> {
    let mut words = Vec::new(rt.alloc());
    for word in env::args(rt)?.skip(1) {
        words.push(word)?;
    }
    Ok(words)
}

// How the program ends where its words cannot be read: memory ran out, or one of them is no text.
fn unread(error: &io::Error) -> Status
    ensures memory { (result ≡ Status.NoMemory) ↔ (error_kind error.now ≡ ErrorKind.OutOfMemory) }
    ensures text { (result ≡ Status.Usage) ↔ (error_kind error.now ≢ ErrorKind.OutOfMemory) }
{
    match error.kind() {
        ErrorKind::OutOfMemory => Status::NoMemory,
        _ => Status::Usage,
    }
}

fn main(rt: HostRuntime) -> ExitCode {
    let words = match words(&rt) {
        Ok(words) => words,
        Err(error) => return ExitCode::from(unread(&error).code()),
    };
    let Ok(files) = rt.clone() else {
        return ExitCode::from(Status::NoMemory.code());
    };
    let mut desk = FileDesk::new(files);
    let mut input = StdSource::new(rt.reader());
    let mut output = StdSink::new(io::writer(&rt));
    let status = run_albert(&rt, rt.alloc(), &words, &mut desk, &mut input, &mut output);
    ExitCode::from(status.code())
}
