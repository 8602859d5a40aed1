//! A gate that holds a degree until two of its blocks were reached and a session was answered: a host that builds first and serves
//! afterwards, or whose workers run one after the other, stays before it until its turns are over.
ghost use Rattle.std.specs.Prelude.{Some};
ghost use Rattle.alb_io.specs.Memory.{IsSoundShelf, files_of};

use crate::desks::{Text, desk};
use crate::runs::words_of;
use alb_host::run_host;
use alb_io::{Desk, Failed, MemDesk, MemSink, MemSource, OpenError, Sink, Status};
use alb_pool::Gate;
use std::alloc::Global;
use std::sync::Wait;
use std::sync::atomic::{AtomicBool, AtomicU64, Ordering};
use std::test::Fail;
use std::thread::{Threads, yield_now};

/// The most turns of a wait.
const TURNS: u32 = 10_000_000;

// How many line feeds a text has.
fn feeds_in(text: &[u8]) -> u64 {
    text.iter().filter(|byte| **byte == b'\n').count() as u64
}

/// A sink in memory that adds the line feeds that it takes to a shared count.
#[derive(Drop)]
pub struct FeedSink<'a> {
    pub inner: MemSink,
    pub feeds: &'a AtomicU64,
}

impl<'a> Sink for FeedSink<'a> {
    ghost taken = { λ s. Some s.inner.taken };

    ghost name = { λ s. s.inner.name };

    ghost faults = { λ s. s.inner.faults };

    fn put(&mut self, piece: &[u8]) -> Result<usize, Failed> {
        let count = self.inner.put(piece)?;
        let _before = self
            .feeds
            .fetch_add(feeds_in(&piece[..count]), Ordering::SeqCst);
        Ok(count)
    }
}

/// A desk in memory, whose sinks share a count of line feeds.
#[derive(Drop)]
pub struct FeedDesk<'a> {
    pub inner: MemDesk,
    pub feeds: &'a AtomicU64,
}

impl<'a> Desk for FeedDesk<'a> {
    type In = MemSource;

    type Out = FeedSink<'a>;

    ghost files = { λ d. Some (files_of d.inner.files) };

    ghost faults = { λ d. d.inner.faults };

    ghost is_sound = { λ d. IsSoundShelf d.inner };

    fn open(&mut self, alloc: Global, name: &str) -> Result<MemSource, OpenError> {
        self.inner.open(alloc, name)
    }

    fn create(&mut self, alloc: Global, name: &str) -> Result<FeedSink<'a>, OpenError> {
        match self.inner.create(alloc, name) {
            Ok(inner) => Ok(FeedSink {
                inner,
                feeds: self.feeds,
            }),
            Err(error) => Err(error),
        }
    }
}

/// Holds the first block of degree 3 that is reached.
#[derive(Drop)]
pub struct HoldingGate<'a> {
    feeds: &'a AtomicU64,
    reached: AtomicU64,
    is_late: AtomicBool,
}

impl<'a> HoldingGate<'a> {
    /// A gate that has held nothing.
    pub fn new(feeds: &'a AtomicU64) -> HoldingGate<'a> {
        HoldingGate {
            feeds,
            reached: AtomicU64::new(0),
            is_late: AtomicBool::new(false),
        }
    }

    // Yields until there are two of what is counted. It is late where they do not come.
    fn await_two(&self, count: &AtomicU64) {
        for _ in 0..TURNS {
            if 2 <= count.load(Ordering::SeqCst) {
                return;
            }
            yield_now();
        }
        self.is_late.store(true, Ordering::SeqCst);
    }

    /// Whether it held a block, and what it waited for came.
    pub fn was_passed(&self) -> bool {
        1 <= self.reached.load(Ordering::SeqCst) && !self.is_late.load(Ordering::SeqCst)
    }
}

impl<'a> Gate for HoldingGate<'a> {
    fn at(&self, _worker: u32, degree: u32, _block: u32) {
        if degree == 3 && self.reached.fetch_add(1, Ordering::SeqCst) == 0 {
            self.await_two(&self.reached);
            self.await_two(self.feeds);
        }
    }
}

const FILES: [Text<'static>; 2] = [
    (
        "problem",
        b"identity (x,x,y)\nidentity (y,x,x)\ngenerators 2a1b1c\nbuild\n",
    ),
    (
        "in",
        b"await 2\npolynomial (a,a,b)\nawait 4\npolynomial ((ab)a)c - a(b(ac))\nquit\n",
    ),
];

// Whether, by these words, the gate held a degree and was passed, and the run and its session came to their ends.
fn is_served_meanwhile<R: Threads + Wait + Sync>(
    rt: &R,
    alloc: Global,
    words: &str,
) -> Result<bool, Fail> {
    let feeds = AtomicU64::new(0);
    let gate = HoldingGate::new(&feeds);
    let mut desk = FeedDesk {
        inner: desk(alloc, &FILES, 4096, None)?,
        feeds: &feeds,
    };
    let words = words_of(alloc, words)?;
    let mut output = MemSink::new(alloc, 4096, Vec::new(alloc));
    let (status, report) = run_host(rt, alloc, &words, &mut desk, &gate, &mut output);
    let Some(session) = report.sessions.first() else {
        return Err("there is no session".into());
    };
    let wrote = session.sink.inner.bytes();
    Ok(
        gate.was_passed()
            && status == Status::Done
            && output.bytes() == b"built 4\nsession 1 ended\n".as_slice()
            && wrote == b"[2] ready\n[2] not built: degree 3\n[4] ready\n[4] zero\n".as_slice(),
    )
}

#[test]
fn a_session_is_answered_while_two_workers_make_a_degree(rt: HostRuntime) -> Result<(), Fail> {
    let alloc = rt.alloc();
    let passed = is_served_meanwhile(&rt, alloc, "--workers 2 problem in out")?;
    assert!(rt; passed);
    Ok(())
}

#[test]
fn a_session_is_answered_while_three_workers_make_a_degree(rt: HostRuntime) -> Result<(), Fail> {
    let alloc = rt.alloc();
    let passed = is_served_meanwhile(&rt, alloc, "--workers 3 problem in out")?;
    assert!(rt; passed);
    Ok(())
}

#[test]
fn a_session_is_answered_while_sixteen_workers_make_a_degree(rt: HostRuntime) -> Result<(), Fail> {
    let alloc = rt.alloc();
    let passed = is_served_meanwhile(&rt, alloc, "--workers 16 problem in out")?;
    assert!(rt; passed);
    Ok(())
}
