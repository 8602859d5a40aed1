//! Desks of some files, one call of which may fail.
ghost use Rattle.std.specs.Prelude.{◌≤◌, IfOk, map};
ghost use Rattle.alb_io.specs.Memory.{HasPieces};
ghost use Rattle.alb_io.specs.MemFiles.{stored_of};

use alb_io::{MemDesk, MemFile};
use std::alloc::{AllocError, Global};

/// A name, and the bytes of the file of that name.
pub type Text<'a> = (&'static str, &'a [u8]);

/// Whose calls are counted, from 0 on: the opens and creates of the desk, the takes or puts of the file of a name, or the puts of
/// the output.
#[derive(Clone, Copy, PartialEq, Eq)]
pub enum Place {
    Desk,
    File(&'static str),
    Output,
}

/// A call that fails.
#[derive(Clone, Copy)]
pub struct Call {
    pub place: Place,
    pub number: u64,
}

/// The numbers of the calls at a place that fail.
pub fn failing(alloc: Global, call: Option<Call>, place: Place) -> Result<Vec<u64>, AllocError> {
    let mut numbers = Vec::new(alloc);
    match call {
        Some(call) if call.place == place => numbers.push(call.number)?,
        _ => {}
    }
    Ok(numbers)
}

// A file, whose bytes are given and taken in pieces of this length.
fn file(alloc: Global, text: &Text, piece: usize, call: Option<Call>) -> Result<MemFile, AllocError>
    ensures { IfOk result (λ f. 1 ≤ f.piece) }
{
    let (name, bytes) = text;
    Ok(MemFile {
        name: String::from_str(alloc, name)?,
        bytes: bytes.to_vec(alloc)?,
        piece: piece.max(1),
        failing: failing(alloc, call, Place::File(name))?,
    })
}

// The files of a desk.
fn files(
    alloc: Global,
    texts: &[Text],
    piece: usize,
    call: Option<Call>,
) -> Result<Vec<MemFile>, AllocError>
    ensures { IfOk result (λ v. HasPieces (map stored_of v.items)) }
{
    let mut made = Vec::new(alloc);
    for text in texts {
        let next = file(alloc, text, piece, call)?;
        made.push(next)?;
    }
    Ok(made)
}

/// A desk of these files. What is read is given, and what is written taken, in pieces of this length; one call fails, if any.
pub fn desk(
    alloc: Global,
    texts: &[Text],
    piece: usize,
    call: Option<Call>,
) -> Result<MemDesk, AllocError> {
    let files = files(alloc, texts, piece, call)?;
    let numbers = failing(alloc, call, Place::Desk)?;
    Ok(MemDesk::new(files, numbers))
}
