//! The lines of verdicts.
ghost use Rattle.std.specs.Prelude.{◌≡◌, ◌∷◌, ◌++◌, decimal};
ghost use Rattle.std.specs.List.{flat_map};
ghost use Rattle.alb_io.specs.Writes.{Writes};
ghost use Rattle.alb_judge.specs.Verdict.{verdict_text, rejection_text, numbered_line, failure_text, places_text};
ghost use Rattle.alb_judge.specs.Views.{judgement, rejection_of};

use crate::verdict::{Rejection, Verdict};
use alb_io::{Sink, WriteFault, put_all};
use alb_print::{write_count, write_named};

/// Writes the line of a verdict.
pub fn write_verdict<K: Sink>(sink: &mut K, verdict: &Verdict) -> Result<(), WriteFault>
    ensures { Writes K.Sink sink.old sink.new (verdict_text (judgement verdict.now)) result }
{
    match verdict {
        Verdict::Zero => put_all(sink, b"accepted zero\n"),
        Verdict::NotZero => put_all(sink, b"accepted not zero\n"),
        Verdict::Rejected(rejection) => write_rejection(sink, rejection),
    }
}

fn write_rejection<K: Sink>(sink: &mut K, rejection: &Rejection) -> Result<(), WriteFault>
    ensures { Writes K.Sink sink.old sink.new (rejection_text (rejection_of rejection.now)) result }
{
    match rejection {
        Rejection::BadLine(line) => write_numbered(sink, b"rejected 70 line ", *line),
        Rejection::BadNumber(line) => write_numbered(sink, b"rejected 71 line ", *line),
        Rejection::BadIdentity(line) => write_numbered(sink, b"rejected 50 line ", *line),
        Rejection::WrongCount(line) => write_numbered(sink, b"rejected 51 line ", *line),
        Rejection::LaterLine(line) => write_numbered(sink, b"rejected 52 line ", *line),
        Rejection::OutOfType(line) => write_numbered(sink, b"rejected 53 line ", *line),
        Rejection::NotTheClaim => put_all(sink, b"rejected 54\n"),
        Rejection::BadShape(rule) => write_numbered(sink, b"rejected 60 rule ", u64::from(*rule)),
        Rejection::Fails(identity, tuple) => write_failure(sink, *identity, tuple),
        Rejection::ValueZero => put_all(sink, b"rejected 62\n"),
    }
}

// Writes the identity that fails, and the elements.
fn write_failure<K: Sink>(sink: &mut K, identity: u32, tuple: &[u64]) -> Result<(), WriteFault>
    ensures { Writes K.Sink sink.old sink.new (failure_text identity tuple.now) result }
{
    put_all(sink, b"rejected 61 identity ")?;
    write_count(sink, u64::from(identity))?;
    write_places(sink, tuple)
}

fn write_places<K: Sink>(sink: &mut K, tuple: &[u64]) -> Result<(), WriteFault>
    ensures { Writes K.Sink sink.old sink.new (places_text tuple.now) result }
{
    put_all(sink, b" at")?;
    write_elements(sink, tuple)?;
    put_all(sink, b"\n")
}

// Writes each element after a blank.
fn write_elements<K: Sink>(sink: &mut K, tuple: &[u64]) -> Result<(), WriteFault>
    ensures { Writes K.Sink sink.old sink.new (flat_map (λ k. 32 ∷ decimal k) tuple.now) result }
{
    for element in tuple {
        write_element(sink, *element)?;
    }
    Ok(())
}

fn write_element<K: Sink>(sink: &mut K, element: u64) -> Result<(), WriteFault>
    ensures { Writes K.Sink sink.old sink.new (32 ∷ decimal element) result }
{
    put_all(sink, b" ")?;
    write_count(sink, element)
}

// Writes a line that ends with a number.
fn write_numbered<K: Sink>(sink: &mut K, front: &[u8], number: u64) -> Result<(), WriteFault>
    ensures { Writes K.Sink sink.old sink.new (numbered_line front.now number) result }
{
    write_named(sink, front, number)?;
    put_all(sink, b"\n")
}
