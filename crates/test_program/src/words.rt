use crate::runs::{Call, run, words_of};
use alb_io::{MemDesk, MemSink, MemSource, Source, Status};
use alb_top::run_albert;
use std::alloc::Global;
use std::test::Fail;
use std::thread::Threads;

const WORDS: [&str; 18] = [
    "",
    "bach",
    "batch batch",
    "batch 3",
    "sample",
    "sample 0",
    "sample 1000001",
    "sample 1000000000000000000",
    "sample +3",
    "sample -3",
    "sample 3 3",
    "-x",
    "--help",
    "--workers",
    "--workers 0 batch",
    "--workers 17 batch",
    "--workers 2 batch --workers=2",
    "-- --workers 2 batch",
];

// Whether a run with these words ends at once: the input still has its first bytes, and nothing was put.
fn ends_at_once<R: Threads + Sync>(rt: &R, alloc: Global, words: &str) -> Result<bool, Fail> {
    let words = words_of(alloc, words)?;
    let bytes = b"field 7\n".to_vec(alloc)?;
    let mut desk = MemDesk::new(Vec::new(alloc), Vec::new(alloc));
    let mut source = MemSource::new(bytes, 100, Vec::new(alloc));
    let mut sink = MemSink::new(alloc, 100, Vec::new(alloc));
    let status = run_albert(rt, alloc, &words, &mut desk, &mut source, &mut sink);
    let mut buffer = [0; 8];
    let taken = source.take(&mut buffer);
    Ok(
        status == Status::Usage
            && sink.bytes().is_empty()
            && taken == Ok(8)
            && buffer == *b"field 7\n",
    )
}

#[test]
fn other_words_are_no_form(rt: HostRuntime) -> Result<(), Fail> {
    for words in &WORDS {
        assert!(rt; ends_at_once(&rt, rt.alloc(), words)?);
    }
    Ok(())
}

const BATCH: [&str; 5] = [
    "-- batch",
    "batch --",
    "--workers=2 batch",
    "batch --workers 3",
    "--workers 016 -- batch",
];

#[test]
fn the_option_stands_anywhere(rt: HostRuntime) -> Result<(), Fail> {
    for words in &BATCH {
        let run = run(&rt, rt.alloc(), words, b"field 7\n", 4096, None)?;
        assert!(rt; run.is(Status::Done, b"ok\n"));
    }
    Ok(())
}

const SAMPLES: [(&str, &[u8]); 3] = [
    (
        "sample 1",
        b"sample 1: zero 0, not zero 1, dimension 70, products 1348, coefficients 1348\n",
    ),
    (
        "--workers 4 sample 1000",
        b"sample 1000: zero 500, not zero 500, dimension 70, products 1348, coefficients 1348\n",
    ),
    (
        "sample --workers=1 -- 000000000000000257",
        b"sample 257: zero 128, not zero 129, dimension 70, products 1348, coefficients 1348\n",
    ),
];

// The input fails at its first take, so nothing is read.
#[test]
fn half_of_a_sample_is_zero(rt: HostRuntime) -> Result<(), Fail> {
    for (words, line) in &SAMPLES {
        let run = run(&rt, rt.alloc(), words, b"", 4096, Some(Call::Take(0)))?;
        assert!(rt; run.is(Status::Done, line));
    }
    Ok(())
}

// At its n-th put of one byte the output fails, and a front of the line of n bytes is written.
#[test]
fn a_sample_ends_at_a_fault(rt: HostRuntime) -> Result<(), Fail> {
    let run = run(&rt, rt.alloc(), "sample 1", b"", 1, Some(Call::Put(9)))?;
    assert!(rt; run.is(Status::WriteFault, b"sample 1:"));
    Ok(())
}
