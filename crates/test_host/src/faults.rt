//! A fault at each call: every answer that was written stands, and no answer changes in place of the fault.
use crate::desks::{Call, Place, Text};
use crate::runs::{Outcome, run};
use alb_io::Status;
use alb_session::SessionEnd;
use std::alloc::Global;
use std::sync::Wait;
use std::test::Fail;
use std::thread::Threads;

const WORDS: &str = "problem in out";

const PROBLEM: &[u8] = b"identity (x,x,y)\nidentity (y,x,x)\ngenerators 2a1b1c\nbuild\n";

const INPUT: &[u8] = b"await 4\npolynomial ((ab)a)c - a(b(ac))\n";

const WRITTEN: &[u8] = b"[4] ready\n[4] zero\n";

const REPORT: &[u8] = b"built 4\nsession 1 ended\n";

/// The files of a session: one that is created stands there too, so that its puts may fail.
const FILES: [Text<'static>; 3] = [("problem", PROBLEM), ("in", INPUT), ("out", b"")];

/// Where a call fails, how many calls there are, how the run then ends, and what it reports.
type Case = (Place, usize, Status, &'static [u8]);

/// All goes in pieces of one byte. Of the problem file the bytes are taken, and not the end; of what a session reads also the end.
const CASES: [Case; 4] = [
    (Place::Desk, 3, Status::OpenFault, b"open fault\n"),
    (
        Place::File("problem"),
        PROBLEM.len(),
        Status::ReadFault,
        b"read fault\n",
    ),
    (
        Place::File("in"),
        INPUT.len() + 1,
        Status::ReadFault,
        b"built 4\nsession 1 read fault\n",
    ),
    (
        Place::File("out"),
        WRITTEN.len(),
        Status::WriteFault,
        b"built 4\nsession 1 write fault\n",
    ),
];

// A run of the session in which the call of this number fails.
fn run_failing<R: Threads + Wait + Sync>(
    rt: &R,
    alloc: Global,
    place: Place,
    number: usize,
) -> Result<Outcome, Fail> {
    let call = Call {
        place,
        number: number as u64,
    };
    run(rt, alloc, WORDS, &FILES, 1, Some(call))
}

// How many lines are whole.
fn whole_lines(bytes: &[u8]) -> usize {
    bytes.iter().filter(|byte| **byte == b'\n').count()
}

// What a session has written where the call of this number fails: the answers to the lines that were taken whole, or the bytes that
// were put.
fn written_before(place: Place, number: usize) -> &'static [u8] {
    match place {
        Place::File("in") => match whole_lines(INPUT.get(..number).unwrap_or(INPUT)) {
            0 => b"",
            1 => b"[4] ready\n",
            _ => WRITTEN,
        },
        Place::File("out") => WRITTEN.get(..number).unwrap_or(WRITTEN),
        _ => b"",
    }
}

#[test]
fn each_call_fails(rt: HostRuntime) -> Result<(), Fail> {
    for (place, calls, status, report) in &CASES {
        for number in 0..*calls {
            let run = run_failing(&rt, rt.alloc(), *place, number)?;
            assert!(rt; run.is(*status, report));
            assert!(rt; run.written(0) == written_before(*place, number));
        }
        let run = run_failing(&rt, rt.alloc(), *place, *calls)?;
        assert!(rt; run.is(Status::Done, REPORT));
        assert!(rt; run.written(0) == WRITTEN);
    }
    Ok(())
}

// The report is the last that is written: where it cannot be, its front stands there, and the session is as it was.
#[test]
fn each_put_of_the_report_fails(rt: HostRuntime) -> Result<(), Fail> {
    for number in 0..REPORT.len() {
        let run = run_failing(&rt, rt.alloc(), Place::Output, number)?;
        assert!(rt; Some(run.output.bytes()) == REPORT.get(..number));
        assert!(rt; run.status == Status::ReportFault && run.report.status == Status::Done);
        assert!(rt; run.written(0) == WRITTEN);
    }
    let run = run_failing(&rt, rt.alloc(), Place::Output, REPORT.len())?;
    assert!(rt; run.is(Status::Done, REPORT));
    Ok(())
}

/// Words whose report cannot be written at all.
const REPORTS: [&str; 2] = ["", "none in out"];

#[test]
fn a_short_report_fails(rt: HostRuntime) -> Result<(), Fail> {
    let call = Call {
        place: Place::Output,
        number: 0,
    };
    for words in &REPORTS {
        let run = run(&rt, rt.alloc(), words, &FILES, 4096, Some(call))?;
        assert!(rt; run.is(Status::ReportFault, b""));
    }
    Ok(())
}

const TWO: [Text<'static>; 3] = [("problem", PROBLEM), ("first", INPUT), ("second", INPUT)];

// The first session's source fails at its second take, in pieces of 10 bytes: after its first line. The second one is whole.
#[test]
fn a_session_fails_alone(rt: HostRuntime) -> Result<(), Fail> {
    let call = Call {
        place: Place::File("first"),
        number: 1,
    };
    let words = "problem first 1 second 2";
    let run = run(&rt, rt.alloc(), words, &TWO, 10, Some(call))?;
    assert!(rt;
        run.is(
            Status::ReadFault,
            b"built 4\nsession 1 read fault\nsession 2 ended\n"
        )
    );
    assert!(rt; run.status.code() == 2);
    assert!(rt; run.written(0) == b"[4] ready\n".as_slice());
    assert!(rt; run.written(1) == WRITTEN);
    let mut ends = run.report.sessions.iter().map(|session| session.end);
    assert!(rt;
        ends.next() == Some(SessionEnd::ReadFault) && ends.next() == Some(SessionEnd::Ended)
    );
    Ok(())
}

/// Two sessions, the file of the one that fails, at which call, and how the run ends: as the first session that failed.
type Pair = (&'static str, Place, Status, &'static [u8]);

const PAIRS: [Pair; 3] = [
    (
        "problem first 1 second 2",
        Place::File("second"),
        Status::ReadFault,
        b"built 4\nsession 1 ended\nsession 2 read fault\n",
    ),
    (
        "problem first 1 second 2",
        Place::File("2"),
        Status::WriteFault,
        b"built 4\nsession 1 ended\nsession 2 write fault\n",
    ),
    (
        "problem first 1 first 2",
        Place::File("first"),
        Status::ReadFault,
        b"built 4\nsession 1 read fault\nsession 2 read fault\n",
    ),
];

const WITH_OUTPUTS: [Text<'static>; 4] = [
    ("problem", PROBLEM),
    ("first", INPUT),
    ("second", INPUT),
    ("2", b""),
];

#[test]
fn the_first_session_that_failed_gives_the_status(rt: HostRuntime) -> Result<(), Fail> {
    for (words, place, status, report) in &PAIRS {
        let call = Call {
            place: *place,
            number: 0,
        };
        let run = run(&rt, rt.alloc(), words, &WITH_OUTPUTS, 4096, Some(call))?;
        assert!(rt; run.is(*status, report));
    }
    Ok(())
}
