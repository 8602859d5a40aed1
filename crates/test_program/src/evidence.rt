use crate::runs::{joined, run, split_lines};
use std::alloc::{AllocError, Global};
use std::test::Fail;
use std::thread::Threads;

const PROBLEM: &[u8] = b"identity (x,x,y)\ngenerators 2a1b\nbuild\n";

// What a batch prints as evidence about a polynomial.
fn evidence<R: Threads + Sync>(rt: &R, alloc: Global, polynomial: &[u8]) -> Result<Vec<u8>, Fail> {
    let script = joined(alloc, &[PROBLEM, b"prove ", polynomial, b"\n"])?;
    let run = run(rt, alloc, "batch", &script, 4096, None)?;
    // three statements and the answer stand before
    let (_, block) = split_lines(run.text(), 4);
    Ok(block.to_vec(alloc)?)
}

// Whether a check answers so to a claim with this evidence.
fn is_judged<R: Threads + Sync>(
    rt: &R,
    alloc: Global,
    polynomial: &[u8],
    block: &[u8],
    verdict: &[u8],
) -> Result<bool, Fail> {
    let script = joined(alloc, &[PROBLEM, b"claim ", polynomial, b"\n", block])?;
    let run = run(rt, alloc, "check", &script, 4096, None)?;
    let (_, answer) = split_lines(run.text(), 3);
    Ok(answer.starts_with(verdict))
}

const PROVED: [(&[u8], &[u8]); 3] = [
    (b"(a,a,b)", b"accepted zero\n"),
    (b"2(aa)b - 2a(ab) + a - a", b"accepted zero\n"),
    (b"(a,b,a)", b"accepted not zero\n"),
];

#[test]
fn a_check_accepts_what_a_batch_proves(rt: HostRuntime) -> Result<(), Fail> {
    let alloc = rt.alloc();
    for (polynomial, verdict) in &PROVED {
        let block = evidence(&rt, alloc, polynomial)?;
        assert!(rt; is_judged(&rt, alloc, polynomial, &block, verdict)?);
    }
    Ok(())
}

const DIGITS: &[u8] = b"0123456789";

// The block with this byte at this place.
fn with_byte(alloc: Global, block: &[u8], at: usize, byte: u8) -> Result<Vec<u8>, AllocError> {
    let mut other = block.to_vec(alloc)?;
    if let Some(place) = other.get_mut(at) {
        *place = byte;
    }
    Ok(other)
}

// Whether the evidence of (a,a,b) is rejected with each other digit at this place, if a digit stands there.
fn is_needed<R: Threads + Sync>(
    rt: &R,
    alloc: Global,
    block: &[u8],
    at: usize,
) -> Result<bool, Fail> {
    let byte = block.get(at).copied().unwrap_or(b' ');
    if !byte.is_ascii_digit() {
        return Ok(true);
    }
    for digit in DIGITS {
        let other = with_byte(alloc, block, at, *digit)?;
        if *digit != byte && !is_judged(rt, alloc, b"(a,a,b)", &other, b"rejected ")? {
            return Ok(false);
        }
    }
    Ok(true)
}

#[test]
fn a_check_rejects_it_with_another_digit(rt: HostRuntime) -> Result<(), Fail> {
    let alloc = rt.alloc();
    let block = evidence(&rt, alloc, b"(a,a,b)")?;
    assert!(rt; is_judged(&rt, alloc, b"(a,a,b)", &block, b"accepted zero\n")?);
    for at in 0..block.len() {
        assert!(rt; is_needed(&rt, alloc, &block, at)?);
    }
    Ok(())
}
