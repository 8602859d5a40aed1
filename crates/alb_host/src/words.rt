//! The words of the command line of `albert_host`.
ghost use Rattle.std.specs.Prelude.{◌≡◌, ◌<◌, ◌≤◌, ◌+◌, None, Some, Err, IfOk, length, map};
ghost use Rattle.alb_words.specs.Words.{said, texts_of};
ghost use Rattle.alb_host.specs.Words.{pairs_of, are_pairs, host_words, names_view, words_view};

use alb_mono::NoMemory;
use alb_words::{WordsFault, read_words};
use std::alloc::Global;

/// The files of a session.
#[derive(Drop)]
pub struct Names<'a> {
    /// What it reads.
    pub input: &'a str,
    /// What it writes.
    pub output: &'a str,
}

/// What the words of the command line say.
#[derive(Drop)]
pub struct HostWords<'a> {
    /// How many workers build the table.
    pub workers: u32,
    /// The problem file.
    pub problem: &'a str,
    /// The files of each session.
    pub sessions: Vec<Names<'a>>,
}

// Words two by two.
fn pairs<'a>(alloc: Global, words: &[&'a str]) -> Result<Vec<Names<'a>>, NoMemory>
    ensures { IfOk result (λ v. map names_view v.items ≡ pairs_of (map (λ s. s.now) words.now)) }
{
    let mut names = Vec::new(alloc);
    let mut rest = words;
    'pairs: while let [input, output, others @ ..] = rest {
        names.push(Names { input, output })?;
        rest = others;
    }
    Ok(names)
}

// Whether so many words are 1 to 8 pairs.
fn are_pairs(count: usize) -> bool
    ensures { result ≡ are_pairs count }
{
    2 <= count && count <= 16 && count % 2 == 0
}

/// Reads the words of a command line, without the program's name: the option `--workers` as `alb_words::read_words` reads it, the
/// name of the problem file, and for each of 1 to 8 sessions the names of the files that it reads and writes. `Usage` comes where
/// the words are none of these.
pub fn read_host_words<'a>(alloc: Global, words: &'a [String]) -> Result<HostWords<'a>, WordsFault>
    ensures said { IfOk result (λ h. host_words (texts_of words.now) ≡ Some (words_view h)) }
    ensures some_worker { IfOk result (λ h. 0 < h.workers) }
    ensures few_workers { IfOk result (λ h. h.workers ≤ 16) }
    ensures few { IfOk result (λ h. length h.sessions.items ≤ 8) }
    ensures usage { result ≡ Err WordsFault.Usage → host_words (texts_of words.now) ≡ None }
{
    let said = read_words(alloc, words)?;
    let others = said.others.as_slice();
    let Some((problem, rest)) = others.split_first() else {
        return Err(WordsFault::Usage);
    };
    if !are_pairs(rest.len()) {
        return Err(WordsFault::Usage);
    }
    match pairs(alloc, rest) {
        Ok(sessions) => Ok(HostWords {
            workers: said.workers,
            problem,
            sessions,
        }),
        Err(NoMemory) => Err(WordsFault::NoMemory),
    }
}
