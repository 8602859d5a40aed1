ghost use Rattle.std.specs.Prelude.{◌≡◌, ◌≢◌, ◌⊎◌, ◌+◌, ◌<◌, ◌≤◌, ◌++◌, [], ℕ, List, length, true, false, None, Some, IsTrue, IfOk, vec_len, vec_capacity, take, slice_range};
ghost use Rattle.std.specs.Io.KnownBytes.{Consumes, IsAtEnd};
ghost use Rattle.alb_io.specs.Causes.{Rose};
ghost use Rattle.alb_io.specs.Feeder.{IsFeeder, reader_of, is_line, is_last};
ghost use Rattle.alb_io.specs.Reader.{Reads};

use crate::feeder::{Feeder, Gathered};
use crate::{LineStep, NoMemory, Source};
use std::alloc::Global;
use std::marker::Model;

/// Reads the lines of a source. A line ends before a line feed, and after the last line feed what is
/// not empty is a line too. Contracts see what is held, how many bytes may still be taken, whether the
/// end of the source was seen, whether the last answer was given, and the line that was answered last.
#[derive(Drop)]
pub struct LineReader {
    feeder: Feeder,
    gathered: Gathered,
    has_line: bool,
    ended: bool,
}

impl Model for LineReader {
    ghost use Rattle.std.specs.Prelude.{◌≡◌, true, if◌then◌else◌, Some, None, IsTrue};
    ghost use Rattle.alb_io.specs.Reader.{Reader};
    ghost use Rattle.alb_io.specs.Feeder.{held_of, IsFeeder};

    ghost Value = { Reader };

    ghost view = { λ r. record { held = held_of r.feeder; room = r.feeder.room; at_end = r.feeder.at_end; ended = r.ended; line = if r.has_line then Some r.gathered.bytes.items else None } };

    ghost invariant = { λ r. IsFeeder r.feeder };
}

impl LineReader {
    /// A reader that takes at most `limit` bytes over all its calls. It takes its buffers here.
    pub fn open(alloc: Global, limit: u64) -> Result<LineReader, NoMemory>
        ensures { IfOk result (λ r. r ≡ record { held = []; room = limit; at_end = false; ended = false; line = None }) }
    {
        let gathered = Gathered::open(alloc)?;
        Ok(LineReader {
            feeder: Feeder::new(limit),
            gathered,
            has_line: false,
            ended: false,
        })
    }

    /// Reads up to the next line. It takes from the source only while it holds no whole line, each
    /// time at most 4,096 bytes. A line of more than 65,536 bytes is skipped to its end. `ReadFault`
    /// comes only where the source's count of faults rose, and never from a sound source; `InputLimit`
    /// where all bytes that may be taken were taken, no whole line is held and the end was not seen.
    pub fn next_line<S: Source>(&mut self, source: &mut S) -> LineStep
        requires { self.old.ended ≡ false }
        ensures reads { Reads result self.old self.new (S.left source.old) (S.left source.new) }
        ensures later { S.faults source.old ≤ S.faults source.new }
        ensures fault { result ≡ LineStep.ReadFault → Rose (S.faults source.old) (S.faults source.new) }
        ensures sound { S.is_sound source.old → S.is_sound source.new × (result ≢ LineStep.ReadFault) }
    {
        let step = read_line(&mut self.feeder, &mut self.gathered, source);
        self.has_line = matches!(step, LineStep::Line);
        self.ended = matches!(
            step,
            LineStep::End | LineStep::ReadFault | LineStep::InputLimit
        );
        step
    }

    /// Whether the last answer was `End`, `ReadFault` or `InputLimit`, after which no line is read.
    pub fn ended(&self) -> bool
        ensures { result ≡ self.now.ended }
    {
        self.ended
    }

    /// The line that was answered last, without its line feed. The last answer was `Line`.
    pub fn line(&self) -> &[u8]
        requires { self.now.line ≢ None }
        ensures { Some result.now ≡ self.now.line }
    {
        self.gathered.line()
    }
}

// Reads up to the next line feed, or to the end.
fn read_line<S: Source>(feeder: &mut Feeder, gathered: &mut Gathered, source: &mut S) -> LineStep
    requires { IsFeeder feeder.old }
    ensures kept { IsFeeder feeder.new }
    ensures reads { Reads result (reader_of feeder.old [] false false)
        (reader_of feeder.new gathered.new.bytes.items (is_line result) (is_last result)) (S.left source.old) (S.left source.new) }
    ensures later { S.faults source.old ≤ S.faults source.new }
    ensures fault { result ≡ LineStep.ReadFault → Rose (S.faults source.old) (S.faults source.new) }
    ensures sound { S.is_sound source.old → S.is_sound source.new × (result ≢ LineStep.ReadFault) }
{
    gathered.clear();
    'pieces: loop {
        if feeder.move_part(gathered) {
            return gathered.step();
        }
        if feeder.at_end {
            return if gathered.is_empty() {
                LineStep::End
            } else {
                gathered.step()
            };
        }
        if feeder.room == 0 {
            return LineStep::InputLimit;
        }
        match feeder.fill(source) {
            Ok(()) => {}
            Err(_) => return LineStep::ReadFault,
        }
    }
}
