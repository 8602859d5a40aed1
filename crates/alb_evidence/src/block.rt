//! A block that is read line by line.

ghost use Rattle.std.specs.Prelude.{◌≡◌, ◌≤◌, ℕ, true, Ok, length, IfOk};
ghost use Rattle.alb_check.specs.Raw.{raw};
ghost use Rattle.alb_evidence.specs.Block.{closed, padded, NotZero};
ghost use Rattle.alb_evidence.specs.Said.{said, error_at, IsSaid, IsRawPart, Takes, Closing};
ghost use Rattle.alb_evidence.specs.Views.{IsEvidence};

use crate::error::EvidenceError;
use crate::evidence::Evidence;
use crate::flaw::Flaw;
use crate::said::{Said, say};
use crate::table::pad;
use crate::words::is_skipped;
use alb_check::RawTable;
use alb_mono::Letters;
use gf_field::Field;
use std::alloc::Global;

/// A block of which some lines were read.
#[derive(Drop)]
pub struct OpenBlock {
    /// What they say.
    pub said: Said,
    /// The number of the next line that is counted.
    pub next: u64,
}

// The error of a faulty line.
fn fault_at(flaw: Flaw, line: u64) -> EvidenceError
    ensures { result ≡ error_at flaw line }
{
    match flaw {
        Flaw::BadLine => EvidenceError::BadLine { line },
        Flaw::BadNumber => EvidenceError::BadNumber { line },
        Flaw::NoMemory => EvidenceError::NoMemory,
    }
}

// A table whose last line was read.
fn close_table(letters: &Letters, mut table: RawTable) -> Result<Evidence, EvidenceError>
    ensures value { Closing result (Ok (NotZero (padded (length letters.now) (raw table)))) }
    ensures evidence { (p : ℕ) → IsRawPart p (length letters.now) (raw table) → IfOk result (IsEvidence p (length letters.now)) }
{
    match pad(&mut table.generators, letters.len()) {
        Ok(()) => Ok(Evidence::NotZero(table)),
        Err(_) => Err(EvidenceError::NoMemory),
    }
}

impl OpenBlock {
    /// A block of which nothing was read.
    pub fn new() -> OpenBlock
        ensures said { result.said ≡ Said.Nothing }
        ensures next { result.next ≡ 1 }
    {
        OpenBlock {
            said: Said::Nothing,
            next: 1,
        }
    }

    /// Takes a line that does not end the block. At an error the block may have changed. Where there are more lines than `next`
    /// can count, there is no memory for them.
    pub fn take(
        &mut self,
        alloc: Global,
        field: &Field,
        letters: &Letters,
        line: &[u8],
    ) -> Result<(), EvidenceError>
        requires { length line.now ≤ 65536 }
        ensures takes { Takes result field.now letters.now self.old self.new line.now }
        ensures said { IsSaid field.now (length letters.now) self.old.said → IfOk result (λ _. IsSaid field.now (length letters.now) self.new.said) }
    {
        if is_skipped(line) {
            return Ok(());
        }
        match say(alloc, field, letters, &mut self.said, line) {
            Ok(()) => {}
            Err(flaw) => return Err(fault_at(flaw, self.next)),
        }
        match self.next.checked_add(1) {
            Some(next) => {
                self.next = next;
                Ok(())
            }
            None => Err(EvidenceError::NoMemory),
        }
    }

    /// What the whole block says, after which `end` came.
    pub fn close(self, letters: &Letters) -> Result<Evidence, EvidenceError>
        ensures value { Closing result (closed (length letters.now) self.next (said self.said) true) }
        ensures evidence { (p : ℕ) → IsSaid p (length letters.now) self.said → IfOk result (IsEvidence p (length letters.now)) }
    {
        match self.said {
            Said::Nothing => Err(EvidenceError::BadLine { line: self.next }),
            Said::Derivation(lines) => Ok(Evidence::Zero(lines)),
            Said::Table(table) => close_table(letters, table),
        }
    }
}
