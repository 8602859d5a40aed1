ghost use Rattle.std.specs.Prelude.{◌≡◌, None};

use crate::{Desk, Failed, OpenError, Sink, Source};
use std::alloc::Global;
use std::fs;
use std::io::{Read, Write};
use std::marker::Send;
use std::rt::Files;

/// A reader of std as a source. It tells the bytes that the reader has left, where the reader tells
/// them (one over bytes in memory does, a file or a stream of the system does not), and counts each
/// error of the reader as a fault.
#[derive(Drop)]
pub struct StdSource<R: Read> {
    inner: R,
    faults: u64,
}

impl<R: Read> StdSource<R> {
    /// The reader with a count of faults of 0.
    pub fn new(inner: R) -> StdSource<R>
        ensures fresh { ⟦<StdSource<R> as Source>⟧.faults result ≡ 0 }
        ensures left { ⟦<StdSource<R> as Source>⟧.left result ≡ R.remaining inner }
    {
        StdSource { inner, faults: 0 }
    }
}

impl<R: Read> Source for StdSource<R> {
    ghost left = { λ s. R.remaining s.inner };

    ghost faults = { λ s. s.faults };

    ghost is_sound = { λ _. ⊥ };

    fn take(&mut self, buf: &mut [u8]) -> Result<usize, Failed> {
        match self.inner.read(buf) {
            Ok(count) => Ok(count),
            Err(_) => {
                self.faults = self.faults.saturating_add(1);
                Err(Failed)
            }
        }
    }
}

/// A writer of std as a sink. It tells the bytes that the writer holds, where the writer tells them
/// (one into memory does, a file or a stream of the system does not), and counts each error of the
/// writer and each write of 0 bytes as a fault.
#[derive(Drop)]
pub struct StdSink<W: Write> {
    inner: W,
    faults: u64,
}

impl<W: Write> StdSink<W> {
    /// The writer with a count of faults of 0.
    pub fn new(inner: W) -> StdSink<W>
        ensures fresh { ⟦<StdSink<W> as Sink>⟧.faults result ≡ 0 }
        ensures taken { ⟦<StdSink<W> as Sink>⟧.taken result ≡ W.contents inner }
    {
        StdSink { inner, faults: 0 }
    }
}

impl<W: Write> Sink for StdSink<W> {
    ghost taken = { λ s. W.contents s.inner };

    ghost name = { λ _. None };

    ghost faults = { λ s. s.faults };

    fn put(&mut self, piece: &[u8]) -> Result<usize, Failed> {
        match self.inner.write(piece) {
            Ok(count) if 0 < count => Ok(count),
            _ => {
                self.faults = self.faults.saturating_add(1);
                Err(Failed)
            }
        }
    }
}

/// The files of the system as a desk. std tells neither which files there are nor what one holds, so
/// the desk tells no files. It counts each file that could not be opened or created as a fault.
#[derive(Drop)]
pub struct FileDesk<R: Files + Drop> {
    rt: R,
    faults: u64,
}

impl<R: Files + Drop> FileDesk<R>
where
    R::File: Send,
{
    /// The files that the runtime reaches, with a count of faults of 0.
    pub fn new(rt: R) -> FileDesk<R>
        ensures { ⟦<FileDesk<R> as Desk>⟧.faults result ≡ 0 }
    {
        FileDesk { rt, faults: 0 }
    }
}

impl<R: Files + Drop> Desk for FileDesk<R>
where
    R::File: Send,
{
    type In = StdSource<R::File>;

    type Out = StdSink<R::File>;

    ghost files = { λ _. None };

    ghost faults = { λ d. d.faults };

    ghost is_sound = { λ _. ⊥ };

    fn open(&mut self, _alloc: Global, name: &str) -> Result<StdSource<R::File>, OpenError> {
        match fs::open(&self.rt, name) {
            Ok(file) => Ok(StdSource::new(file)),
            Err(_) => {
                self.faults = self.faults.saturating_add(1);
                Err(OpenError::Failed)
            }
        }
    }

    fn create(&mut self, _alloc: Global, name: &str) -> Result<StdSink<R::File>, OpenError> {
        match fs::create(&self.rt, name) {
            Ok(file) => Ok(StdSink::new(file)),
            Err(_) => {
                self.faults = self.faults.saturating_add(1);
                Err(OpenError::Failed)
            }
        }
    }
}
