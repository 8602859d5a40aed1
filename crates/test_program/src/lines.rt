use crate::runs::{joined, run};
use alb_io::Status;
use std::alloc::{AllocError, Global};
use std::test::Fail;

// A script whose third line has this many bytes: a question about a, and blanks.
fn script(alloc: Global, length: usize) -> Result<Vec<u8>, AllocError> {
    let mut question = b"polynomial a".to_vec(alloc)?;
    for _ in question.len()..length {
        question.push(b' ')?;
    }
    joined(
        alloc,
        &[b"generators 1a\nbuild\n", &question, b"\npolynomial 0\n"],
    )
}

const LENGTHS: [(usize, Status, &[u8]); 2] = [
    (
        65536,
        Status::Done,
        b"ok\nbuilt 1\n[1] not zero: a\n[1] zero\n",
    ),
    (
        65537,
        Status::Refused,
        b"ok\nbuilt 1\nrefused 84\n[1] zero\n",
    ),
];

#[test]
fn too_long_lines_are_refused(rt: HostRuntime) -> Result<(), Fail> {
    for (length, status, text) in &LENGTHS {
        let script = script(rt.alloc(), *length)?;
        let run = run(&rt, rt.alloc(), "batch", &script, 4096, None)?;
        assert!(rt; run.is(*status, text));
    }
    Ok(())
}
