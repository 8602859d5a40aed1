ghost use Rattle.std.specs.Prelude.{◌≡◌, ◌≢◌, ◌+◌, ◌-◌, ◌≤◌, [], ℕ, List, length, map, drop, Option, Some, None, IfOk, IfSome, IsErrOf, IsSome, MatchOption, OnErr, slice_index};
ghost use Rattle.std.specs.List.{AllByRecursion};
ghost use Rattle.alb_io.specs.Causes.{Rose};
ghost use Rattle.alb_io.specs.Files.{Files, HasFile, IsFile, OpenCause};
ghost use Rattle.alb_io.specs.Memory.{FailsNoMore, HasPieces, IsSoundShelf, OpensFile, Creates, file_named, files_of, source_of, sink_of, after_call, after_failed_call};
ghost use Rattle.alb_io.specs.MemFiles.{stored_of};
ghost use Rattle.alb_io.specs.declared.desk.OpenError.TheVariants as error;

use crate::{Desk, MemSink, MemSource, NoMemory, OpenError};
use std::alloc::Global;
use std::marker::Model;

/// A file of a `MemDesk`: what `open` gives of it is a `MemSource` of its bytes, and what `create`
/// gives a `MemSink`, both with its piece and its failing numbers.
#[derive(Drop)]
pub struct MemFile {
    /// The name by which it is opened and created.
    pub name: String,
    /// Its bytes.
    pub bytes: Vec<u8>,
    /// The most bytes that one take gives or one put appends.
    pub piece: usize,
    /// The numbers of the takes or puts that fail.
    pub failing: Vec<u64>,
}

/// A desk in memory. It tells its files, and fails where it is told to.
#[derive(Drop)]
pub struct MemDesk {
    files: Vec<MemFile>,
    failing: Vec<u64>,
    next: u64,
    faults: u64,
}

impl Model for MemDesk {
    ghost use Rattle.std.specs.Prelude.{map};
    ghost use Rattle.alb_io.specs.Memory.{Shelf, HasPieces};

    ghost Value = { Shelf };

    ghost use Rattle.alb_io.specs.MemFiles.{stored_of};

    ghost view = { λ d. record { files = map stored_of d.files.items; failing = d.failing.items; next = d.next; faults = d.faults } };

    ghost invariant = { λ d. HasPieces (map stored_of d.files.items) };
}

// The first file of that name.
fn find<'a>(files: &'a [MemFile], name: &str) -> Option<&'a MemFile>
    ensures { MatchOption result (file_named name.now (map stored_of files.now) ≡ None)
        (λ f. file_named name.now (map stored_of files.now) ≡ Some (stored_of f.now)) }
{
    for file in files {
        if name == file.name.as_str() {
            return Some(file);
        }
    }
    None
}

// The source of a file.
fn open_file(alloc: Global, file: &MemFile) -> Result<MemSource, NoMemory>
    requires { 1 ≤ file.now.piece }
    ensures { IfOk result (λ s. s ≡ source_of (stored_of file.now)) }
{
    let bytes = file.bytes.to_vec(alloc)?;
    let failing = file.failing.to_vec(alloc)?;
    Ok(MemSource::new(bytes, file.piece, failing))
}

// The sink that is created with a name.
fn create_file(alloc: Global, name: &str, file: Option<&MemFile>) -> Result<MemSink, NoMemory>
    requires { MatchOption file (Unit {0}) (λ f. 1 ≤ f.now.piece) }
    ensures { IfOk result (λ s. MatchOption file.entry (s ≡ sink_of name.now None) (λ f. s ≡ sink_of name.now (Some (stored_of f.now)))) }
{
    match file {
        Some(file) => MemSink::named(alloc, name, file.piece, &file.failing),
        None => MemSink::named(alloc, name, usize::MAX, &[]),
    }
}

impl MemDesk {
    /// A desk of these files. Of two with one name the first counts. Opens and creates are
    /// numbered together from 0, and those that are listed fail; one that finds no memory has no
    /// number.
    pub fn new(files: Vec<MemFile>, failing: Vec<u64>) -> MemDesk
        requires { HasPieces (map stored_of files.items) }
        ensures { result ≡ record { files = map stored_of files.items; failing = failing.items; next = 0; faults = 0 } }
    {
        MemDesk {
            files,
            failing,
            next: 0,
            faults: 0,
        }
    }
}

impl Desk for MemDesk {
    type In = MemSource;

    type Out = MemSink;

    ghost files = { λ d. Some (files_of d.files) };

    ghost faults = { λ d. d.faults };

    ghost is_sound = { IsSoundShelf };

    fn open(&mut self, alloc: Global, name: &str) -> Result<MemSource, OpenError>
        ensures cause { OpenCause self.old.faults self.new.faults result }
        ensures same_files { Some (files_of self.new.files) ≡ Some (files_of self.old.files) }
        ensures fresh { IfOk result (λ source. source.faults ≡ 0) }
        ensures content { IfOk result (λ source. HasFile (Some (files_of self.old.files)) name.now (Some source.left)) }
        ensures no_memory { IsErrOf result error.NoMemory → self.new ≡ self.old }
        ensures stays_sound { IsSoundShelf self.old → IsSoundShelf self.new × IfOk result (λ source. FailsNoMore source.failing source.next) }
        ensures opens { IsSoundShelf self.old → IsFile (Some (files_of self.old.files)) name.now → IsErrOf result error.Failed → ⊥ }
        ensures answer { OpensFile name.now result self.old self.new }
    {
        if self.failing.contains(&self.next) {
            self.next = self.next.saturating_add(1);
            self.faults = self.faults.saturating_add(1);
            return Err(OpenError::Failed);
        }
        let Some(file) = find(&self.files, name) else {
            self.next = self.next.saturating_add(1);
            self.faults = self.faults.saturating_add(1);
            return Err(OpenError::Failed);
        };
        match open_file(alloc, file) {
            Ok(source) => {
                self.next = self.next.saturating_add(1);
                Ok(source)
            }
            Err(_) => Err(OpenError::NoMemory),
        }
    }

    fn create(&mut self, alloc: Global, name: &str) -> Result<MemSink, OpenError>
        ensures cause { OpenCause self.old.faults self.new.faults result }
        ensures same_files { Some (files_of self.new.files) ≡ Some (files_of self.old.files) }
        ensures fresh { IfOk result (λ sink. sink.faults ≡ 0) }
        ensures empty { IsSome (Some (files_of self.old.files)) → IfOk result (λ sink. (Some sink.taken ≡ Some []) × (sink.name ≡ Some name.now)) }
        ensures no_memory { IsErrOf result error.NoMemory → self.new ≡ self.old }
        ensures stays_sound { IsSoundShelf self.old → IsSoundShelf self.new × (IsErrOf result error.Failed → ⊥) }
        ensures answer { Creates name.now result self.old self.new }
    {
        if self.failing.contains(&self.next) {
            self.next = self.next.saturating_add(1);
            self.faults = self.faults.saturating_add(1);
            return Err(OpenError::Failed);
        }
        match create_file(alloc, name, find(&self.files, name)) {
            Ok(sink) => {
                self.next = self.next.saturating_add(1);
                Ok(sink)
            }
            Err(_) => Err(OpenError::NoMemory),
        }
    }
}
