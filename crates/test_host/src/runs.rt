//! Runs of the host over files in memory, without a gate.
use crate::desks::{Call, Place, Text, desk, failing};
use alb_host::{HostReport, run_host};
use alb_io::{MemSink, MemSource, Status};
use alb_pool::NoGate;
use std::alloc::{AllocError, Global};
use std::sync::Wait;
use std::test::Fail;
use std::thread::Threads;

/// What a run left: the status that it answered, what it wrote to its output, and its report.
#[derive(Drop)]
pub struct Outcome {
    pub status: Status,
    pub output: MemSink,
    pub report: HostReport<MemSource, MemSink>,
}

impl Outcome {
    /// Whether the run ended so, and wrote this report.
    pub fn is(&self, status: Status, report: &[u8]) -> bool {
        self.status == status && self.output.bytes() == report
    }

    /// What the session of this number wrote, counted from 0; nothing where there is no such session.
    pub fn written(&self, number: usize) -> &[u8] {
        match self.report.sessions.get(number) {
            Some(session) => session.sink.bytes(),
            None => b"",
        }
    }
}

/// The words of a command line, which stand between blanks.
pub fn words_of(alloc: Global, text: &str) -> Result<Vec<String>, AllocError> {
    let mut words = Vec::new(alloc);
    for word in text.split_whitespace() {
        words.push(String::from_str(alloc, word)?)?;
    }
    Ok(words)
}

/// A run with these words and files. What is read, and what is written, goes in pieces of this length; one call fails, if any.
pub fn run<R: Threads + Wait + Sync>(
    rt: &R,
    alloc: Global,
    words: &str,
    texts: &[Text],
    piece: usize,
    call: Option<Call>,
) -> Result<Outcome, Fail> {
    let words = words_of(alloc, words)?;
    let mut desk = desk(alloc, texts, piece, call)?;
    let puts = failing(alloc, call, Place::Output)?;
    let mut output = MemSink::new(alloc, piece.max(1), puts);
    let (status, report) = run_host(rt, alloc, &words, &mut desk, &NoGate, &mut output);
    Ok(Outcome {
        status,
        output,
        report,
    })
}
