ghost use Rattle.std.specs.Prelude.{◌≡◌, ◌≢◌, ◌<◌, ◌≤◌, None, Some, IfOk, IfSome, Err, false, map, option_map};
ghost use Rattle.clap.specs.Words.{app_of};
ghost use Rattle.alb_words.specs.Words.{texts_of, are_taken, command_line, said, workers_in, Finds};

use crate::numbers::number;
use clap::error::ErrorKind;
use clap::{Arg, ArgAction, ArgMatches, Command};
use std::alloc::{AllocError, Global};

/// What the words of a command line say.
#[derive(Drop)]
pub struct Words<'a> {
    /// How many workers are to be used.
    pub workers: u32,
    /// The words that are not the option `--workers` or its value, in order.
    pub others: Vec<&'a str>,
}

/// Why words say nothing.
#[derive(Clone, Copy, Debug, PartialEq, Eq)]
pub enum WordsFault {
    /// They are at fault.
    Usage,
    /// There was no memory.
    NoMemory,
}

impl From<AllocError> for WordsFault {
    ghost use Rattle.alb_words.specs.declared.read.WordsFault.TheVariants as faults;

    ghost from_gives = { λ _ e. e ≡ faults.NoMemory };

    fn from(_e: AllocError) -> WordsFault {
        WordsFault::NoMemory
    }
}

// The command line, for clap.
fn command_line<'a>(alloc: Global) -> Result<Command<'a>, AllocError>
    ensures { IfOk result (λ c. app_of c ≡ command_line) }
{
    let workers = Arg::new(alloc, "workers")
        .long("workers")
        .action(ArgAction::Set);
    let words = Arg::new(alloc, "words").action(ArgAction::Append);
    Command::new(alloc, "albert")
        .no_binary_name(true)
        .disable_help_flag(true)
        .disable_version_flag(true)
        .arg(workers)?
        .arg(words)
}

// What an error of clap comes from.
fn fault(kind: ErrorKind) -> WordsFault
    ensures usage { result ≡ WordsFault.Usage → kind ≢ ErrorKind.OutOfMemory }
{
    match kind {
        ErrorKind::OutOfMemory => WordsFault::NoMemory,
        _ => WordsFault::Usage,
    }
}

// What clap finds in the words.
fn matches<'a>(alloc: Global, words: &'a [String]) -> Result<ArgMatches<'a>, WordsFault>
    ensures finds { IfOk result (Finds (texts_of words.now)) }
    ensures usage { result ≡ Err WordsFault.Usage → are_taken (texts_of words.now) ≡ false }
{
    let command = command_line(alloc)?;
    match command.try_get_matches_from(words) {
        Ok(matches) => Ok(matches),
        Err(error) => {
            let kind = error.kind();
            Err(fault(kind))
        }
    }
}

// The number of workers that a value names: 1 to 16, and two where there is no value.
fn workers(value: Option<&str>) -> Option<u32>
    ensures value { result ≡ workers_in (option_map (λ s. s.now) value.entry) }
    ensures range { IfSome result (λ n. (0 < n) × (n ≤ 16)) }
{
    let Some(text) = value else {
        return Some(2);
    };
    match number(text) {
        Some(n) if 1 <= n && n <= 16 => Some(n as u32),
        _ => None,
    }
}

/// Reads the words of a command line, without the program's name: at most one option `--workers N` or `--workers=N` before the
/// first `--`, where N is a number of 1 to 18 digits from 1 to 16, and other words, which before that `--` do not begin with `-`
/// unless they are that one byte. `Usage` comes where the words are none of these.
pub fn read_words<'a>(alloc: Global, words: &'a [String]) -> Result<Words<'a>, WordsFault>
    ensures said { IfOk result (λ w. said (texts_of words.now) ≡ Some (record { workers = w.workers; others = map (λ s. s.now) w.others.items })) }
    ensures workers { IfOk result (λ w. (0 < w.workers) × (w.workers ≤ 16)) }
    ensures usage { result ≡ Err WordsFault.Usage → said (texts_of words.now) ≡ None }
{
    let found = matches(alloc, words)?;
    let Some(workers) = workers(found.get_str("workers")) else {
        return Err(WordsFault::Usage);
    };
    let mut others = Vec::new(alloc);
    if let Some(list) = found.get_strs("words") {
        others.extend_from_slice(list)?;
    }
    Ok(Words { workers, others })
}
