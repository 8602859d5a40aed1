//! What runs report, and what their sessions write.
use crate::desks::Text;
use crate::runs::run;
use alb_io::Status;
use std::alloc::{AllocError, Global};
use std::sync::Wait;
use std::test::Fail;
use std::thread::Threads;

/// A problem, what a session reads, how the run ends, the report, and what the session writes.
type Row = (
    &'static [u8],
    &'static [u8],
    Status,
    &'static [u8],
    &'static [u8],
);

const ROWS: [Row; 12] = [
    // The left Moufang identity in alternative algebras.
    (
        b"identity (x,x,y)\nidentity (y,x,x)\ngenerators 2a1b1c\nbuild\n",
        b"await 4\npolynomial ((ab)a)c - a(b(ac))\nquit\n",
        Status::Done,
        b"built 4\nsession 1 ended\n",
        b"[4] ready\n[4] zero\n",
    ),
    // No degree above the total is awaited.
    (
        b"generators 12a\nidentity xx\nbuild\n",
        b"await 13\nawait 12\n",
        Status::Done,
        b"built 12\nsession 1 ended\n",
        b"refused 83 at 7\n[12] ready\n",
    ),
    // The bracketings of ten letters are 4,862, a Catalan number.
    (
        b"generators 10a\nbuild\n",
        b"await 10\nawait 9\n",
        Status::Done,
        b"built 9, stopped: 4862 products of type (10)\nsession 1 ended\n",
        b"[9] stopped\n[9] ready\n",
    ),
    // Evidence, dimensions and products.
    (
        b"identity (x,y,z)\ngenerators 1a1b\nbuild\n",
        b"await 2\nprove ab - ba\ndimensions\ntable\n",
        Status::Done,
        b"built 2\nsession 1 ended\n",
        b"[2] ready\n[2] not zero: -ba + ab\ntable (1,1)\nelement 1 (1,0)\nelement 2 (0,1)\nelement 3 (1,1)\nelement 4 (1,1)\ngenerator a 1\ngenerator b 2\nentry 1 2 3 1\nentry 2 1 4 1\nend\n[2] dimensions 3\n(1,0) 1\n(0,1) 1\n(1,1) 2\n[2] table 2\nab = ab\nba = ba\n",
    ),
    // The statements of a problem, claims and forms of a batch are no words of a session, and nothing is skipped after them.
    (
        b"generators 1a\nbuild\n",
        b"field 7\nidentity xx\ngenerators 1b\nbuild\nclaim a\npolynomial a\nend\n# none\n\nawait\nquit now\n",
        Status::Done,
        b"built 1\nsession 1 ended\n",
        b"refused 80\nrefused 80\nrefused 80\nrefused 80\nrefused 80\n[1] not zero: a\nrefused 80\nrefused 83 at 6\nrefused 83 at 6\n",
    ),
    // An empty session, and a problem that ends with the file.
    (
        b"generators 1a",
        b"",
        Status::Done,
        b"built 1\nsession 1 ended\n",
        b"",
    ),
    // A problem that ends with `quit`.
    (
        b"generators 1a\nquit\ngenerators 1b\n",
        b"polynomial a",
        Status::Done,
        b"built 1\nsession 1 ended\n",
        b"[1] not zero: a\n",
    ),
    // Problem files with a refused line: skipped lines count, and the first refused line counts.
    (
        b"# two laws\n\ngenerators 2a\nidentity xx+x\nidentity xx\nbuild\n",
        b"polynomial a\n",
        Status::Refused,
        b"refused 31 in line 4\n",
        b"",
    ),
    (
        b"generators 1a\npolynomial a\nbuild\n",
        b"polynomial a\n",
        Status::Refused,
        b"refused 81 in line 2\n",
        b"",
    ),
    // At the end of a problem: its line `build` or `quit`, or the line after the last one.
    (
        b"field 5\ngenerators 5a\nbuild\n",
        b"polynomial a\n",
        Status::Refused,
        b"refused 44 in line 3\n",
        b"",
    ),
    (
        b"identity xx\nquit\n",
        b"polynomial a\n",
        Status::Refused,
        b"refused 43 in line 2\n",
        b"",
    ),
    (
        b"",
        b"polynomial a\n",
        Status::Refused,
        b"refused 43 in line 1\n",
        b"",
    ),
];

// Whether a run is as its row says, by so many workers and in pieces of this length.
fn is_so<R: Threads + Wait + Sync>(
    rt: &R,
    alloc: Global,
    row: &Row,
    words: &str,
    piece: usize,
) -> Result<bool, Fail> {
    let (problem, input, status, report, written) = row;
    let texts = [("problem", *problem), ("in", *input)];
    let run = run(rt, alloc, words, &texts, piece, None)?;
    Ok(run.is(*status, report) && run.written(0) == *written)
}

#[test]
fn runs_are_as_their_rows(rt: HostRuntime) -> Result<(), Fail> {
    for row in &ROWS {
        assert!(rt; is_so(&rt, rt.alloc(), row, "problem in out", 4096)?);
        assert!(rt; is_so(&rt, rt.alloc(), row, "--workers 4 problem -- in out", 10)?);
    }
    Ok(())
}

const MOUFANG: [Text<'static>; 2] = [
    (
        "problem",
        b"identity (x,x,y)\nidentity (y,x,x)\ngenerators 2a1b1c\nbuild\n",
    ),
    (
        "in",
        b"await 2\nawait 4\npolynomial ((ab)a)c - a(b(ac))\nquit\n",
    ),
];

// Degree 2 is there at the first answer, and a higher one may be.
#[test]
fn a_degree_is_there_or_a_higher_one(rt: HostRuntime) -> Result<(), Fail> {
    let run = run(
        &rt,
        rt.alloc(),
        "--workers 2 problem in out",
        &MOUFANG,
        4096,
        None,
    )?;
    assert!(rt; run.is(Status::Done, b"built 4\nsession 1 ended\n"));
    let mut found = 0u32;
    for first in [b"[2] ready\n", b"[3] ready\n", b"[4] ready\n"] {
        let rest = run.written(0).strip_prefix(first.as_slice());
        if rest == Some(b"[4] ready\n[4] zero\n".as_slice()) {
            found = found.wrapping_add(1);
        }
    }
    assert!(rt; found == 1);
    Ok(())
}

const EIGHT: [Text<'static>; 2] = [
    ("problem", b"identity xx\ngenerators 2a1b\nbuild\n"),
    ("in", b"await 3\npolynomial aa\npolynomial [a,b]\n"),
];

#[test]
fn eight_sessions_share_a_problem(rt: HostRuntime) -> Result<(), Fail> {
    let words = "problem in 1 in 2 in 3 in 4 in 5 in 6 in 7 in 8";
    let run = run(&rt, rt.alloc(), words, &EIGHT, 4096, None)?;
    assert!(rt;
        run.is(
            Status::Done,
            b"built 3\nsession 1 ended\nsession 2 ended\nsession 3 ended\nsession 4 ended\nsession 5 ended\nsession 6 ended\nsession 7 ended\nsession 8 ended\n"
        )
    );
    for number in 0..8 {
        assert!(rt; run.written(number) == b"[3] ready\n[3] zero\n[3] not zero: 2ab\n".as_slice());
    }
    Ok(())
}

const AT_FAULT: [&str; 9] = [
    "",
    "problem",
    "problem in",
    "problem in out in",
    "problem in 1 in 2 in 3 in 4 in 5 in 6 in 7 in 8 in 9",
    "--workers 17 problem in out",
    "--workers 0 problem in out",
    "--workers 2 problem in out --workers=2",
    "-x problem in out",
];

#[test]
fn words_at_fault_open_nothing(rt: HostRuntime) -> Result<(), Fail> {
    for words in &AT_FAULT {
        let run = run(&rt, rt.alloc(), words, &MOUFANG, 4096, None)?;
        assert!(rt; run.is(Status::Usage, b"usage\n"));
        assert!(rt; run.report.problem.is_none());
    }
    Ok(())
}

const MISSING: [&str; 3] = ["none in out", "problem none out", "problem in out none out"];

#[test]
fn a_missing_file_is_told(rt: HostRuntime) -> Result<(), Fail> {
    for words in &MISSING {
        let run = run(&rt, rt.alloc(), words, &MOUFANG, 4096, None)?;
        assert!(rt; run.is(Status::OpenFault, b"open fault\n"));
    }
    Ok(())
}

// A problem whose second line has this many bytes: a comment.
fn long_problem(alloc: Global, length: usize) -> Result<Vec<u8>, AllocError> {
    let mut text = b"generators 1a\n".to_vec(alloc)?;
    for _ in 0..length {
        text.push(b'#')?;
    }
    text.extend_from_slice(b"\nbuild\n")?;
    Ok(text)
}

const LENGTHS: [(usize, Status, &[u8]); 2] = [
    (65536, Status::Done, b"built 1\nsession 1 ended\n"),
    (65537, Status::Refused, b"refused 84 in line 2\n"),
];

#[test]
fn a_problem_file_with_a_long_line(rt: HostRuntime) -> Result<(), Fail> {
    let alloc = rt.alloc();
    for (length, status, report) in &LENGTHS {
        let problem = long_problem(alloc, *length)?;
        let texts = [("problem", problem.as_slice()), ("in", b"".as_slice())];
        let run = run(&rt, alloc, "problem in out", &texts, 4096, None)?;
        assert!(rt; run.is(*status, report));
    }
    Ok(())
}
