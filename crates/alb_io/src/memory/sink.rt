ghost use Rattle.std.specs.Prelude.{◌≡◌, ◌<◌, ◌≤◌, [], length, min, Some, None, IsErr, IfOk, OnErr, Contains};
ghost use Rattle.std.specs.Io.KnownBytes.{WriteAppends};
ghost use Rattle.alb_io.specs.Causes.{HasCause};
ghost use Rattle.alb_io.specs.Memory.{after_put, after_failed_put};

use crate::{Failed, NoMemory, Sink};
use std::alloc::Global;
use std::marker::Model;

/// A sink in memory. It tells the bytes that it has taken, takes them in pieces, and fails where it
/// is told to. One that a `MemDesk` created tells the name that it was created with.
#[derive(Drop)]
pub struct MemSink {
    name: Option<String>,
    bytes: Vec<u8>,
    piece: usize,
    failing: Vec<u64>,
    next: u64,
    faults: u64,
}

impl Model for MemSink {
    ghost use Rattle.std.specs.Prelude.{◌<◌};
    ghost use Rattle.std.specs.Option.{option_map};
    ghost use Rattle.std.specs.String.{string_bytes};
    ghost use Rattle.alb_io.specs.Memory.{Taking};

    ghost Value = { Taking };

    ghost view = { λ s. record { name = option_map string_bytes s.name; taken = s.bytes.items; piece = s.piece; failing = s.failing.items; next = s.next; faults = s.faults } };

    ghost invariant = { λ s. 0 < s.piece };
}

impl MemSink {
    /// A sink with no name that has taken nothing. Its puts are numbered from 0, and those that are
    /// listed fail. Each of the others appends as many bytes as the lesser of `piece` and the
    /// length of what is put, or fails when out of memory. No contract tells how much memory there
    /// is, so which puts fail beyond those that are listed is left free, and nothing else: what a
    /// put answers and leaves is determined by whether it fails.
    pub fn new(alloc: Global, piece: usize, failing: Vec<u64>) -> MemSink
        requires { 1 ≤ piece }
        ensures { result ≡ record { name = None; taken = []; piece = piece; failing = failing.items; next = 0; faults = 0 } }
    {
        MemSink {
            name: None,
            bytes: Vec::new(alloc),
            piece,
            failing,
            next: 0,
            faults: 0,
        }
    }

    // The same with a name.
    pub fn named(
        alloc: Global,
        name: &str,
        piece: usize,
        failing: &[u64],
    ) -> Result<MemSink, NoMemory>
        requires { 1 ≤ piece }
        ensures { IfOk result (λ s. s ≡ record { name = Some name.now; taken = []; piece = piece; failing = failing.now; next = 0; faults = 0 }) }
    {
        let failing = failing.to_vec(alloc)?;
        let name = String::from_str(alloc, name)?;
        Ok(MemSink {
            name: Some(name),
            bytes: Vec::new(alloc),
            piece,
            failing,
            next: 0,
            faults: 0,
        })
    }

    /// The bytes that it has taken.
    pub fn bytes(&self) -> &[u8]
        ensures { result.now ≡ self.now.taken }
    {
        &self.bytes
    }
}

impl Sink for MemSink {
    ghost taken = { λ s. Some s.taken };

    ghost name = { λ s. s.name };

    ghost faults = { λ s. s.faults };

    fn put(&mut self, piece: &[u8]) -> Result<usize, Failed>
        requires { 0 < length piece.now }
        ensures bound { IfOk result (λ n. (0 < n) × (n ≤ length piece.now)) }
        ensures bytes { WriteAppends (Some self.old.taken) (Some self.new.taken) result piece.now }
        ensures same_name { self.new.name ≡ self.old.name }
        ensures cause { HasCause self.old.faults self.new.faults result }
        ensures listed { Contains self.old.failing self.old.next → IsErr result }
        ensures lesser { IfOk result (λ n. n ≡ min self.old.piece (length piece.now)) }
        ensures appended { IfOk result (λ n. self.new ≡ after_put n piece.now self.old) }
        ensures failed { OnErr result (self.new ≡ after_failed_put self.old) }
    {
        let number = self.next;
        self.next = number.saturating_add(1);
        let count = self.piece.min(piece.len());
        if self.failing.contains(&number)
            || self.bytes.extend_from_slice(&piece[..count]).is_err()
        {
            self.faults = self.faults.saturating_add(1);
            return Err(Failed);
        }
        Ok(count)
    }
}
