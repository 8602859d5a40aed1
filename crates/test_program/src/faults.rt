use crate::runs::{Call, run, split_lines};
use alb_io::Status;
use std::alloc::Global;
use std::test::Fail;
use std::thread::Threads;

/// The words, a script, what answers it, and for each answer the number of lines that it needs.
type Row = (&'static str, &'static [u8], &'static [u8], &'static [usize]);

/// The left Moufang identity in alternative algebras, and a derivation of (aa)b - a(ab) in left alternative ones.
const SCRIPTS: [Row; 2] = [
    (
        "batch",
        b"identity (x,x,y)\nidentity (y,x,x)\ngenerators 2a1b1c\nbuild\npolynomial ((ab)a)c - a(b(ac))\n",
        b"identity 1\nidentity 2\nok\nbuilt 4\n[4] zero\n",
        &[1, 2, 3, 4, 5],
    ),
    (
        "check",
        b"identity (x,x,y)\ngenerators 2a1b\nbuild\nclaim (a,a,b)\nderivation\n1 instance 1 a a b\n2 sum 126*1\nend\n",
        b"identity 1\nok\nready\naccepted zero\n",
        &[1, 2, 3, 8],
    ),
];

const PIECES: [usize; 4] = [1, 7, 10, 4096];

#[test]
fn pieces_of_any_length_give_the_same_text(rt: HostRuntime) -> Result<(), Fail> {
    for (words, script, text, _) in &SCRIPTS {
        for piece in &PIECES {
            let run = run(&rt, rt.alloc(), words, script, *piece, None)?;
            assert!(rt; run.is(Status::Done, text));
        }
    }
    Ok(())
}

// How many lines are whole.
fn whole_lines(bytes: &[u8]) -> usize {
    bytes.iter().filter(|byte| **byte == b'\n').count()
}

// The answers to what was taken.
fn answers<'a>(taken: &[u8], text: &'a [u8], needed: &[usize]) -> &'a [u8] {
    let lines = whole_lines(taken);
    for (at, count) in needed.iter().enumerate() {
        if lines < *count {
            return split_lines(text, at).0;
        }
    }
    text
}

// Whether a run, in pieces of one byte, ends at the failing take with the answers to the lines that were taken before.
fn stops_at_take<R: Threads + Sync>(
    rt: &R,
    alloc: Global,
    row: &Row,
    at: usize,
) -> Result<bool, Fail> {
    let (words, script, text, needed) = row;
    let Some(taken) = script.get(..at) else {
        return Ok(false);
    };
    let run = run(rt, alloc, words, script, 1, Some(Call::Take(at as u64)))?;
    Ok(run.is(Status::ReadFault, answers(taken, text, needed)))
}

#[test]
fn each_take_fails(rt: HostRuntime) -> Result<(), Fail> {
    for row in &SCRIPTS {
        for at in 0..row.1.len() + 1 {
            assert!(rt; stops_at_take(&rt, rt.alloc(), row, at)?);
        }
        // the end is taken once
        let past = Call::Take(row.1.len() as u64 + 1);
        let run = run(&rt, rt.alloc(), row.0, row.1, 1, Some(past))?;
        assert!(rt; run.is(Status::Done, row.2));
    }
    Ok(())
}

#[test]
fn the_fourth_take_fails(rt: HostRuntime) -> Result<(), Fail> {
    let (words, script, _, _) = &SCRIPTS[0];
    let run = run(&rt, rt.alloc(), words, script, 10, Some(Call::Take(3)))?;
    assert!(rt; run.is(Status::ReadFault, b"identity 1\n"));
    assert!(rt; run.status.code() == 2);
    Ok(())
}

// Whether a run, in pieces of one byte, ends at the failing put with the bytes that were put before.
fn stops_at_put<R: Threads + Sync>(
    rt: &R,
    alloc: Global,
    row: &Row,
    at: usize,
) -> Result<bool, Fail> {
    let (words, script, text, _) = row;
    let Some(put) = text.get(..at) else {
        return Ok(false);
    };
    let run = run(rt, alloc, words, script, 1, Some(Call::Put(at as u64)))?;
    Ok(run.is(Status::WriteFault, put))
}

#[test]
fn each_put_fails(rt: HostRuntime) -> Result<(), Fail> {
    for row in &SCRIPTS {
        for at in 0..row.2.len() {
            assert!(rt; stops_at_put(&rt, rt.alloc(), row, at)?);
        }
        let past = Call::Put(row.2.len() as u64);
        let run = run(&rt, rt.alloc(), row.0, row.1, 1, Some(past))?;
        assert!(rt; run.is(Status::Done, row.2));
    }
    Ok(())
}
