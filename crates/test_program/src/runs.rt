use alb_io::{MemDesk, MemSink, MemSource, Status};
use alb_top::run_albert;
use std::alloc::{AllocError, Global};
use std::test::Fail;
use std::thread::Threads;

/// A call of the input or the output, by its number from 0 on.
#[derive(Clone, Copy)]
pub enum Call {
    Take(u64),
    Put(u64),
}

/// What a run wrote, and its status.
#[derive(Drop)]
pub struct Outcome {
    output: MemSink,
    pub status: Status,
}

impl Outcome {
    pub fn text(&self) -> &[u8] {
        self.output.bytes()
    }

    /// Whether the run ended so and wrote this text.
    pub fn is(&self, status: Status, text: &[u8]) -> bool {
        self.status == status && self.text() == text
    }
}

/// The words of a command line, which stand between blanks.
pub fn words_of(alloc: Global, text: &str) -> Result<Vec<String>, AllocError> {
    let mut words = Vec::new(alloc);
    for word in text.split_whitespace() {
        words.push(String::from_str(alloc, word)?)?;
    }
    Ok(words)
}

// The numbers of the takes and of the puts that fail.
fn failing(alloc: Global, call: Option<Call>) -> Result<(Vec<u64>, Vec<u64>), AllocError> {
    let mut takes = Vec::new(alloc);
    let mut puts = Vec::new(alloc);
    match call {
        Some(Call::Take(number)) => takes.push(number)?,
        Some(Call::Put(number)) => puts.push(number)?,
        None => {}
    }
    Ok((takes, puts))
}

/// A run with these words and this input, which is taken, and what is written put, in pieces of this length. One call fails, if
/// any.
pub fn run<R: Threads + Sync>(
    rt: &R,
    alloc: Global,
    words: &str,
    input: &[u8],
    piece: usize,
    call: Option<Call>,
) -> Result<Outcome, Fail> {
    let words = words_of(alloc, words)?;
    let bytes = input.to_vec(alloc)?;
    let (takes, puts) = failing(alloc, call)?;
    let piece = piece.max(1);
    let mut desk = MemDesk::new(Vec::new(alloc), Vec::new(alloc));
    let mut source = MemSource::new(bytes, piece, takes);
    let mut output = MemSink::new(alloc, piece, puts);
    let status = run_albert(rt, alloc, &words, &mut desk, &mut source, &mut output);
    Ok(Outcome { output, status })
}

/// The parts of a text, one after the other.
pub fn joined(alloc: Global, parts: &[&[u8]]) -> Result<Vec<u8>, AllocError> {
    let mut text = Vec::new(alloc);
    for part in parts {
        text.extend_from_slice(part)?;
    }
    Ok(text)
}

/// The first lines of a text, and the rest.
pub fn split_lines(text: &[u8], count: usize) -> (&[u8], &[u8]) {
    let mut left = count;
    for at in 0..text.len() {
        if left == 0 {
            return text.split_at(at);
        }
        if text[at] == b'\n' {
            left -= 1;
        }
    }
    text.split_at(text.len())
}
